// The move beside a pattern, read off its course: the lowest open level gives a row of the tables, and each step by B above it raises the move.
ghost use Rattle.std.specs.Prelude.{◌≡◌, Bool, true, false, cond, ◌-◌, ◌≤◌};
ghost use Rattle.std.proofs.Math.Option.{some};
ghost use Rattle.listing.specs.Numbers.{Among};
ghost use Rattle.listing.specs.Limits.{most_ports};
ghost use Rattle.listing.specs.Orders.{inverse};
ghost use Rattle.listing_course.specs.Course.{Course};
ghost use Rattle.listing_course.specs.Onward.{join_from, hop_from, goes_on, course_move};
ghost use Rattle.listing_course.specs.Seeking.{letter_if, row_at, Opens, Sought, Lifted};
ghost use Rattle.words.specs.Meaning.{move_of};

use crate::types::Open;
use pattern_joins::changes::{inverse_of, raised_by};
use pattern_joins::tables::{closing, hop, join};
use pattern_steps::numbers::is_odd;
use words::limits::LONGEST;
use words::{Jack, Move, Order};

// A move, turned round where that is said. (Which way is data of the question.)
fn inverse_if(back: bool, m: Move) -> Move
    ensures { move_of result ≡ cond back (inverse (move_of m)) (move_of m) }
{
    if back { inverse_of(m) } else { m }
}

// From the one part of block i to the other, by A or, where the step skips a level, by B; with 3 ports, where none does, from the one block to the other.
fn join_from(skips: bool, n: u8, i: u8) -> Move
    requires { (3 ≤ n) × (n ≤ most_ports) × Among (n - 1) i × (skips ≡ true → 4 ≤ n) }
    ensures { move_of result ≡ join_from (letter_if skips) n i }
{
    if n == 3 && i == 1 {
        Move::One(Order::Turn(Jack(1), Jack(2), Jack(3)))
    } else if n == 3 {
        Move::One(Order::Turn(Jack(1), Jack(3), Jack(2)))
    } else {
        inverse_if(skips, join(n, i))
    }
}

// From block i to the next, or back to the one before it. (Which way is data of the list.)
fn hop_from(forward: bool, n: u8, i: u8) -> Move
    requires { (4 ≤ n) × (n ≤ most_ports) × (forward ≡ true → Among (n - 2) i) × (forward ≡ false → Among (n - 2) (i - 1)) }
    ensures { move_of result ≡ hop_from forward n i }
{
    if forward {
        hop(n, i)
    } else {
        inverse_of(hop(n, i - 1))
    }
}

// The row of an open level: inside its block where the shorter list is read forward, else from its block to another.
fn row_of(levels: &[u8; LONGEST], o: Open) -> Move
    requires { (o.ports ≤ most_ports) × ((bottom : Bool) × Opens levels.now bottom o.ports o.inner) }
    ensures { move_of result ≡ row_at levels.now o.ports o.inner }
{
    let n = o.ports;
    let i = levels[(n - 1) as usize];
    let skips = levels[(n - 2) as usize] == 0;
    if o.inner {
        join_from(skips, n, i)
    } else {
        // the shorter list is read backward: then the list is read forward by B in an odd block, and by A in an even one
        let forward = is_odd(i) == skips;
        hop_from(forward, n, i)
    }
}

// A move of the list for fewer ports on the jacks of the list for n: raised by each step by B of the course above, over a level that is skipped.
fn lifted(levels: &[u8; LONGEST], n: u8, from: u8, first: Move) -> Move
    requires ports { (2 ≤ from) × (from ≤ n) × (n ≤ most_ports) }
    requires course { Course levels.now n × Course levels.now from }
    requires goes { (bottom : Bool) × (goes_on levels.now bottom from ≡ some (move_of first)) }
    ensures { Lifted levels.now from (move_of first) n (move_of result) }
{
    let mut v = first;
    let mut m = from;
    // a step makes one jack or two
    while m < n {
        let at = m as usize;
        if levels[at] == 0 {
            v = raised_by(levels[at + 1], v);
            m += 2;
        } else {
            m += 1;
        }
    }
    v
}

// The move from the pattern of a course to the one beside it, the next or, backward, the previous: where no level is open, the closing step.
pub fn move_on(levels: &[u8; LONGEST], n: u8, back: bool, o: Open) -> Move
    requires ports { (2 ≤ n) × (n ≤ most_ports) }
    requires course { Course levels.now n }
    requires sought { Sought levels.now n back o.ports o.inner }
    ensures { move_of result ≡ course_move levels.now n back }
{
    if o.ports == 0 {
        inverse_if(back, closing(n))
    } else {
        lifted(levels, n, o.ports, row_of(levels, o))
    }
}
