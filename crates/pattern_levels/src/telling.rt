// What the step that a pattern came by tells of its place, and of the shorter pattern.
ghost use Rattle.std.specs.Prelude.{◌≡◌, ◌≤◌};
ghost use Rattle.listing.specs.Steps.{shorter};
ghost use Rattle.listing.specs.Reading.{comes_first};
ghost use Rattle.pattern_levels.specs.Levels.{letter_of, end_of};

use crate::types::Came;
use pattern_steps::numbers::is_odd;

// Whether the patterns by a step are the first part of their block, in the list read forward or backward.
pub fn comes_first(forward: bool, c: Came) -> bool
    ensures { result ≡ comes_first forward (letter_of c) (end_of c) }
{
    match c {
        Came::ByA(i) => is_odd(i) == forward,
        Came::ByB(i) => is_odd(i) != forward,
    }
}

// The block that a pattern stands in.
pub fn block_of(c: Came) -> u8
    ensures { result ≡ end_of c }
{
    match c {
        Came::ByA(i) | Came::ByB(i) => i,
    }
}

// How many ports the shorter pattern has.
pub fn ports_below(c: Came, n: u8) -> u8
    requires { 2 ≤ n }
    ensures { result ≡ shorter (letter_of c) n }
{
    match c {
        Came::ByA(_) => n - 1,
        Came::ByB(_) => n - 2,
    }
}
