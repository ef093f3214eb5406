// What the command for several benches prints, put into a buffer: the line of a bench, the lines of all, a bench's plan, the sums, a refusal. Each is put from a
// place on; the answer is the place after it.
#![tactic(auto)]

ghost use Rattle.std.proofs.Math.Option.{none, some};
ghost use Rattle.std.specs.Prelude.{◌+◌, ◌≤◌, length};
ghost use Rattle.plan_rules.specs.Rules.{leg_is};
ghost use Rattle.line_putting.specs.Putting.{Puts};
ghost use Rattle.line_refusal.specs.Text.{refusal_text};
ghost use Rattle.benches_laws.specs.Plans.{one_plan_text};
ghost use Rattle.benches_laws.specs.Calls.{Good};
ghost use Rattle.benches_calls.specs.Answers.{share_told, counts_are};
ghost use Rattle.benches_text.specs.Text.{bench_line, bench_lines, sum_lines, most_answer};
ghost use Rattle.benches_writing.specs.Lines.{share_line};

use benches_calls::sharing::share;
use benches_calls::{Counts, Fault};
use line_putting::{put_number, put_spelled, put_text};
use plan_facts::{put_line, run_line};
use words::{Leg, Signed};

// No answer is longer.
pub const ANSWER_BYTES: usize = 5056;

// The line of a bench without a plan.
fn put_none(bench: u64, from: usize, buf: &mut [u8]) -> usize
    requires { from + length (bench_line bench none) ≤ length buf.old }
    ensures { Puts from (bench_line bench none) buf.old result buf.new }
{
    let end = put_number(b"bench=", bench, from, buf);
    put_text(b" none\n", end, buf)
}

// The line of a bench with a plan.
fn put_leg(bench: u64, l: Leg, from: usize, buf: &mut [u8]) -> usize
    requires { from + length (bench_line bench (some (leg_is l))) ≤ length buf.old }
    ensures { Puts from (bench_line bench (some (leg_is l))) buf.old result buf.new }
{
    let start = put_number(b"bench=", bench, from, buf);
    let run = put_number(b" start=", l.start, start, buf);
    let end = put_number(b" run=", l.run, run, buf);
    put_text(b"\n", end, buf)
}

// The line of a bench's share; nothing for one that is refused.
fn put_share(bench: u64, shared: Result<Option<Leg>, Fault>, at: usize, buf: &mut [u8]) -> usize
    requires { at + length (share_line bench (share_told shared)) ≤ length buf.old }
    ensures { Puts at (share_line bench (share_told shared)) buf.old result buf.new }
{
    match shared {
        Err(_) => at,
        Ok(None) => put_none(bench, at, buf),
        Ok(Some(l)) => put_leg(bench, l, at, buf),
    }
}

// The lines of all benches, at the front of a buffer. These and the answers after them are no longer than the longest.
pub fn put_shares(ports: u64, benches: u64, buf: &mut [u8]) -> usize
    requires { Good ports benches × (most_answer ≤ length buf.old) }
    ensures fits { result ≤ most_answer }
    ensures puts { Puts 0 (bench_lines ports benches 0 benches) buf.old result buf.new }
{
    let mut at: usize = 0;
    for bench in 0..benches {
        at = put_share(bench, share(ports, benches, bench), at, buf);
    }
    at
}

// The line of a bench without a plan, at the front of a buffer.
pub fn put_no_plan(bench: u64, buf: &mut [u8]) -> usize
    requires { most_answer ≤ length buf.old }
    ensures fits { result ≤ most_answer }
    ensures puts { Puts 0 (bench_line bench none) buf.old result buf.new }
{
    put_none(bench, 0, buf)
}

// A bench's plan, at the front of a buffer.
pub fn put_plan(ports: u64, l: Leg, buf: &mut [u8]) -> usize
    requires { most_answer ≤ length buf.old }
    ensures fits { result ≤ most_answer }
    ensures puts { Puts 0 (one_plan_text ports (leg_is l)) buf.old result buf.new }
{
    let legs = put_line(b"ports=", ports, 0, buf);
    let start = put_line(b"legs=", 1, legs, buf);
    let run = put_line(b"start=", l.start, start, buf);
    put_spelled(
        run_line(Signed {
            back: l.back,
            magnitude: l.run,
        }),
        run,
        buf,
    )
}

// The sums, of how many patterns, at the front of a buffer.
pub fn put_sums(c: Counts, of: u64, buf: &mut [u8]) -> usize
    requires { most_answer ≤ length buf.old }
    ensures fits { result ≤ most_answer }
    ensures puts { Puts 0 (sum_lines (counts_are c) of) buf.old result buf.new }
{
    let open = put_line(b"covered=", c.covered, 0, buf);
    let errors = put_line(b"open=", c.opened, open, buf);
    let all = put_line(b"errors=", c.errors, errors, buf);
    put_line(b"of=", of, all, buf)
}

// A refusal, by its number and its place, at the front of a buffer. (Two kinds of refusal have numbers in one row.)
pub fn put_refusal(number: u8, place: u64, buf: &mut [u8]) -> usize
    requires { most_answer ≤ length buf.old }
    ensures fits { result ≤ most_answer }
    ensures puts { Puts 0 (refusal_text number place) buf.old result buf.new }
{
    let at = put_line(b"refused=", number as u64, 0, buf);
    put_line(b"at=", place, at, buf)
}
