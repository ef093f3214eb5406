// The place of a pattern in the list and in the reversed list, level by level.
ghost use Rattle.std.specs.Prelude.{◌≡◌, true, false, cond, suc, ◌+◌, ◌-◌, ◌≤◌};
ghost use Rattle.listing.specs.Numbers.{Among, before};
ghost use Rattle.listing.specs.Count.{count};
ghost use Rattle.listing.specs.Rank.{from_end, rank};
ghost use Rattle.listing.specs.Reading.{other, comes_first, passed};
ghost use Rattle.listing.specs.Limits.{most_ports};
ghost use Rattle.pattern_steps.specs.Blocks.{part_of};
ghost use Rattle.pattern_inverse.specs.Judged.{pattern_of};
ghost use Rattle.pattern_levels.specs.Levels.{letter_of, end_of};
ghost use Rattle.pattern_ranks.specs.Levels.{PlacedBy, LevelOf, Placing};

use crate::types::Level;
use pattern_inverse::types::Taken;
use pattern_levels::peeling::peel;
use pattern_levels::telling::{block_of, comes_first, ports_below};
use pattern_levels::types::Came;
use pattern_steps::counts::{Parts, parts_of};

// How many blocks come before block i, in the list read forward or backward. (Which way is data of the level above.)
fn blocks_before(forward: bool, n: u8, i: u8) -> u8
    requires { Among (n - 1) i }
    ensures { result ≡ cond forward (before i) (n - suc i) }
{
    if forward { i - 1 } else { n - 1 - i }
}

// How many patterns of a block come before the part in which a pattern stands: none, or those by the other step.
fn first_part(forward: bool, parts: Parts, c: Came) -> u64
    ensures { result ≡ cond (comes_first forward (letter_of c) (end_of c)) 0 (part_of (other (letter_of c)) parts) }
{
    if comes_first(forward, c) {
        0
    } else {
        match c {
            Came::ByA(_) => parts.by_b,
            Came::ByB(_) => parts.by_a,
        }
    }
}

// How many patterns of the list, read forward or backward, come before the part in which a pattern stands.
fn passed_over(forward: bool, n: u8, c: Came) -> u64
    requires { (2 ≤ n) × (n ≤ most_ports) × Among (n - 1) (end_of c) }
    ensures { result ≡ passed forward (letter_of c) n (end_of c) }
{
    let parts = parts_of(n);
    let blocks = blocks_before(forward, n, block_of(c)) as u64;
    blocks * (parts.by_a + parts.by_b) + first_part(forward, parts, c)
}

// What the step that a pattern of n ports came by tells of its place, in the list read forward or backward.
pub fn placed_by(forward: bool, n: u8, c: Came) -> Level
    requires { (2 ≤ n) × (n ≤ most_ports) × Among (n - 1) (end_of c) }
    ensures { PlacedBy forward n c result }
{
    Level {
        passed: passed_over(forward, n, c),
        forward: comes_first(forward, c),
        ports: ports_below(c, n),
    }
}

// One level of the place of a pattern in the list read forward or backward. The shorter pattern is left.
fn level(forward: bool, t: &mut Taken) -> Level
    requires { 2 ≤ t.old.ports }
    ensures { LevelOf forward t.old result t.new }
{
    let n = t.ports;
    let c = peel(t);
    placed_by(forward, n, c)
}

// The place of a pattern in the list, which is its rank, after so many that were passed over. (Place in the list and place in the reversed list call each other:
// the paper has them so.)
#[cycle(place_place_back)]
fn place(t: &mut Taken, passed: u64) -> u64
    requires { Placing true t.old passed }
    ensures { result ≡ passed + rank t.old.ports (pattern_of t.old) }
{
    if t.ports == 0 {
        return passed;
    }
    let l = level(true, t);
    if l.forward {
        return place(t, passed + l.passed);
    }
    place_back(t, passed + l.passed)
}

// Its place in the reversed list, after so many that were passed over.
#[cycle(place_place_back)]
fn place_back(t: &mut Taken, passed: u64) -> u64
    requires { Placing false t.old passed }
    ensures { result ≡ passed + from_end (count t.old.ports) (rank t.old.ports (pattern_of t.old)) }
{
    if t.ports == 0 {
        return passed;
    }
    let l = level(false, t);
    if l.forward {
        return place(t, passed + l.passed);
    }
    place_back(t, passed + l.passed)
}

// The rank of a pattern, which is taken apart.
pub fn rank_of(t: &mut Taken) -> u64
    ensures { result ≡ rank t.old.ports (pattern_of t.old) }
{
    place(t, 0)
}
