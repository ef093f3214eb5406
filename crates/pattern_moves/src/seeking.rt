// The lowest open level of a course, sought on the way down: of a course that is there, and of a pattern that is taken apart to its course.
ghost use Rattle.std.specs.Prelude.{◌≡◌, cond, ◌≤◌};
ghost use Rattle.listing.specs.Numbers.{before};
ghost use Rattle.listing.specs.Pattern.{entry};
ghost use Rattle.listing.specs.Limits.{most_ports};
ghost use Rattle.listing.specs.Reading.{comes_first};
ghost use Rattle.listing_course.specs.Course.{Course, CourseOf};
ghost use Rattle.listing_course.specs.Onward.{is_open};
ghost use Rattle.listing_course.specs.Seeking.{letter_at, Sought};
ghost use Rattle.pattern_inverse.specs.Judged.{pattern_of};
ghost use Rattle.pattern_levels.specs.Levels.{came_of, letter_of, end_of};
ghost use Rattle.pattern_moves.specs.Lowest.{open_by};

use crate::types::Open;
use pattern_inverse::types::Taken;
use pattern_levels::peeling::peel;
use pattern_levels::telling::{block_of, comes_first, ports_below};
use pattern_levels::types::Came;
use words::limits::{FEWEST_PORTS, LONGEST};

// The block that comes last in the list for n ports, read forward or backward. (Which way is data of the level above.)
fn last_block(forward: bool, n: u8) -> u8
    requires { 1 ≤ n }
    ensures { result ≡ cond forward (before n) 1 }
{
    if forward { n - 1 } else { 1 }
}

// Whether a level of n ports in block i goes on where the shorter list ends: from the first part of a block always, from the second but not past the last.
fn is_open(inner: bool, forward: bool, n: u8, i: u8) -> bool
    requires { 1 ≤ n }
    ensures { result ≡ is_open inner forward n i }
{
    inner || i != last_block(forward, n)
}

// The lowest open level once the level of n ports is looked at too, whose list is read forward or backward: that level, if it is open.
fn lowest(above: Open, forward: bool, n: u8, c: Came) -> Open
    requires { 1 ≤ n }
    ensures ports { result.ports ≡ cond (open_by forward n c) n above.ports }
    ensures inner { result.inner ≡ cond (open_by forward n c) (comes_first forward (letter_of c) (end_of c)) above.inner }
{
    let inner = comes_first(forward, c);
    if is_open(inner, forward, n, block_of(c)) {
        Open { ports: n, inner }
    } else {
        above
    }
}

// The step by which a course comes to n ports: by B if it skips the level below.
fn step_at(levels: &[u8; LONGEST], n: u8) -> Came
    requires { (2 ≤ n) × (n ≤ most_ports) }
    ensures { result ≡ came_of (letter_at levels.now n) (entry levels.now n) }
{
    let i = levels[(n - 1) as usize];
    if levels[(n - 2) as usize] == 0 {
        Came::ByB(i)
    } else {
        Came::ByA(i)
    }
}

// Where the list goes on, forward or backward, from the pattern of n ports that a course makes. (`take_apart` goes down as well, with a pattern and a course to
// write: of one walk with the step handed over little would be left in common but the three lines at its end.)
pub fn seek(levels: &[u8; LONGEST], n: u8, back: bool) -> Open
    requires ports { (2 ≤ n) × (n ≤ most_ports) }
    requires course { Course levels.now n }
    ensures { Sought levels.now n back result.ports result.inner }
{
    let mut forward = !back;
    let mut m = n;
    let mut found = Open {
        ports: 0,
        inner: false,
    };
    // a level takes one jack or two
    while FEWEST_PORTS < m {
        let step = step_at(levels, m);
        found = lowest(found, forward, m, step);
        forward = comes_first(forward, step);
        m = ports_below(step, m);
    }
    found
}

// A pattern is taken apart, and its course fills the array: the number of level k at place k - 1, and 0 for a level that B skips. The answer is where the list
// goes on from the pattern, forward or backward.
pub fn take_apart(t: &mut Taken, back: bool, levels: &mut [u8; LONGEST]) -> Open
    requires { 2 ≤ t.old.ports }
    ensures course { CourseOf levels.new t.old.ports (pattern_of t.old) }
    ensures sought { Sought levels.new t.old.ports back result.ports result.inner }
{
    let mut forward = !back;
    let mut found = Open {
        ports: 0,
        inner: false,
    };
    // a level takes one jack or two
    while FEWEST_PORTS < t.ports {
        let m = t.ports;
        let last = (m - 1) as usize;
        let c = peel(t);
        levels[last] = block_of(c);
        // it stays 0 if the step is B, which skips that level
        levels[last - 1] = 0;
        found = lowest(found, forward, m, c);
        forward = comes_first(forward, c);
    }
    // levels 1 and 2 of every course
    levels[0] = 0;
    levels[1] = 1;
    found
}
