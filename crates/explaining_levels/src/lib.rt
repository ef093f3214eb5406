// Why a pattern has its rank, written: a line for each of its levels, and then the rank.
#![tactic(auto)]

ghost use Rattle.std.specs.Prelude.{◌≡◌, ◌++◌, ◌+◌, ◌≤◌, length};
ghost use Rattle.line_putting.specs.Putting.{Puts};
ghost use Rattle.pattern_inverse.specs.Judged.{pattern_of};
ghost use Rattle.pattern_levels.specs.Levels.{letter_of};
ghost use Rattle.explaining.specs.Text.{by_text, read_text, level_text, why_text, most_explained};
ghost use Rattle.explaining_levels.specs.Levels.{level_is};

use line_putting::{put_number, put_text};
use pattern_inverse::types::Taken;
use pattern_levels::peeling::peel;
use pattern_levels::telling::block_of;
use pattern_levels::types::Came;
use pattern_ranks::ranking::placed_by;
use pattern_ranks::types::Level;
use plan_facts::put_line;

// The fewest ports of a level that is told.
const LEAST_LEVEL: u8 = 3;

// The step that the pattern came by, put into a buffer from a place on; the place after it. So do the next ones.
fn put_by(c: Came, at: usize, buf: &mut [u8]) -> usize
    requires { at + length (by_text (letter_of c)) ≤ length buf.old }
    ensures { Puts at (by_text (letter_of c)) buf.old result buf.new }
{
    match c {
        Came::ByA(_) => put_text(b" by=A", at, buf),
        Came::ByB(_) => put_text(b" by=B", at, buf),
    }
}

// How the shorter list is read. (Which way is data of the level.)
fn put_read(forward: bool, at: usize, buf: &mut [u8]) -> usize
    requires { at + length (read_text forward) ≤ length buf.old }
    ensures { Puts at (read_text forward) buf.old result buf.new }
{
    if forward {
        put_text(b" read=forward", at, buf)
    } else {
        put_text(b" read=backward", at, buf)
    }
}

// The line of a level.
fn put_level(n: u8, c: Came, l: Level, from: usize, buf: &mut [u8]) -> usize
    requires { from + length (level_text (level_is n c l)) ≤ length buf.old }
    ensures { Puts from (level_text (level_is n c l)) buf.old result buf.new }
{
    let last = put_number(b"level=", n as u64, from, buf);
    let by = put_number(b" last=", block_of(c) as u64, last, buf);
    let read = put_by(c, by, buf);
    let over = put_read(l.forward, read, buf);
    let end = put_number(b" over=", l.passed, over, buf);
    put_text(b"\n", end, buf)
}

// Why a pattern has its rank, at the front of a buffer; how many bytes that takes. The pattern is taken apart.
pub fn put_why(t: &mut Taken, buf: &mut [u8]) -> usize
    requires { (2 ≤ t.old.ports) × (most_explained ≤ length buf.old) }
    ensures puts { Puts 0 (why_text (pattern_of t.old)) buf.old result buf.new }
    ensures fits { result ≤ most_explained }
{
    let mut forward = true;
    let mut rank: u64 = 0;
    let mut at: usize = 0;
    // No `for`: a level leaves one port less or two.
    while LEAST_LEVEL <= t.ports {
        let n = t.ports;
        let c = peel(t);
        let l = placed_by(forward, n, c);
        at = put_level(n, c, l, at, buf);
        rank += l.passed;
        forward = l.forward;
    }
    put_line(b"rank=", rank, at, buf)
}
