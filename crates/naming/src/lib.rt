// What a plan names, as text: how many ranks, of how many there are, and the gaps that it leaves, in lines of key=value.
#![tactic(auto)]

ghost use Rattle.std.specs.Prelude.{◌≡◌, ◌+◌, ◌*◌, ◌≤◌, length};
ghost use Rattle.line_format.specs.Calls.{over};
ghost use Rattle.naming.specs.Text.{counts_text, gap_text, gaps_text, named_text, most_named};
ghost use Rattle.line_putting.specs.Putting.{Puts};
ghost use Rattle.naming.specs.Arcs.{arcs_in};

use line_putting::put_spelled;
use pattern_steps::counts::count_of;
use plan_arcs::gaps::{GAP_NUMBERS, count_named, put_gaps};
use plan_facts::{pair_line, put_line};
use plan_rules::ruled::RuledPlan;

// No text is longer.
pub const NAMED_BYTES: usize = 718;

// A gap, its first rank and how many ranks it has, put into a buffer from a place on; the place after it.
fn put_gap(first: u64, many: u64, at: usize, buf: &mut [u8]) -> usize
    requires { at + length (gap_text (record { first = first; many = many })) ≤ length buf.old }
    ensures { Puts at (gap_text (record { first = first; many = many })) buf.old result buf.new }
{
    put_spelled(pair_line(b"gap=", first, many), at, buf)
}

// A line for each of so many gaps, put into a buffer from a place on; the place after them.
fn put_gap_lines(gaps: &[u64], many: u64, from: usize, buf: &mut [u8]) -> usize
    requires { (2 * many ≤ length gaps.now) × (from + length (gaps_text (arcs_in many gaps.now)) ≤ length buf.old) }
    ensures { Puts from (gaps_text (arcs_in many gaps.now)) buf.old result buf.new }
{
    let mut at = from;
    for k in 0..many as usize {
        at = put_gap(gaps[2 * k], gaps[2 * k + 1], at, buf);
    }
    at
}

// The three counts, at the front of a buffer; the place after them.
fn put_counts(named: u64, of: u64, gaps: u64, buf: &mut [u8]) -> usize
    requires { length (counts_text named of gaps) ≤ length buf.old }
    ensures { Puts 0 (counts_text named of gaps) buf.old result buf.new }
{
    let first = put_line(b"named=", named, 0, buf);
    let second = put_line(b"of=", of, first, buf);
    put_line(b"gaps=", gaps, second, buf)
}

// What a plan names, written at the front of a buffer; how many bytes that takes.
pub fn named_text(ruled: RuledPlan, buf: &mut [u8]) -> usize
    requires { most_named ≤ length buf.old }
    ensures answer { result ≡ length (named_text ruled.plan) }
    ensures bytes { buf.new ≡ over (named_text ruled.plan) buf.old }
{
    let tally = count_named(ruled);
    let of = count_of(ruled.plan.ports);
    let mut gaps = [0u64; GAP_NUMBERS];
    put_gaps(ruled, &mut gaps);
    let at = put_counts(tally.named, of, tally.gaps, buf);
    put_gap_lines(&gaps, tally.gaps, at, buf)
}
