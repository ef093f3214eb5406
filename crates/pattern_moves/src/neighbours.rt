// The move from a pattern to its neighbours round the circuit.
ghost use Rattle.std.specs.Prelude.{◌≡◌, ◌≤◌};
ghost use Rattle.listing.specs.Rank.{rank};
ghost use Rattle.listing.specs.Limits.{most_ports};
ghost use Rattle.listing.specs.Neighbours.{move_beside};
ghost use Rattle.listing_course.specs.Course.{Course};
ghost use Rattle.listing_course.specs.Onward.{course_move};
ghost use Rattle.words.specs.Meaning.{move_of};
ghost use Rattle.pattern_inverse.specs.Judged.{pattern_of};

use crate::onward::move_on;
use crate::seeking::{seek, take_apart};
use pattern_inverse::types::Taken;
use words::Move;
use words::limits::LONGEST;

// The move from a pattern, which is taken apart, to the one beside it, the next or, backward, the previous.
pub fn move_beside(t: &mut Taken, back: bool) -> Move
    requires { 2 ≤ t.old.ports }
    ensures { move_of result ≡ move_beside t.old.ports back (rank t.old.ports (pattern_of t.old)) }
{
    let mut levels = [0u8; LONGEST];
    let n = t.ports;
    let found = take_apart(t, back, &mut levels);
    move_on(&levels, n, back, found)
}

// The same from the pattern of n ports that a course makes.
pub fn move_along(levels: &[u8; LONGEST], n: u8, back: bool) -> Move
    requires ports { (2 ≤ n) × (n ≤ most_ports) }
    requires course { Course levels.now n }
    ensures { move_of result ≡ course_move levels.now n back }
{
    let found = seek(levels, n, back);
    move_on(levels, n, back, found)
}
