// The pattern of a rank: first its course, down the levels, then the steps up the course, in the lent buffer.
ghost use Rattle.std.specs.Prelude.{◌≡◌, ◌≤◌, ◌<◌, length};
ghost use Rattle.listing.specs.Count.{count};
ghost use Rattle.listing.specs.Listing.{at};
ghost use Rattle.listing.specs.Limits.{most_ports};
ghost use Rattle.listing_course.specs.Course.{built, Course, CourseOf};
ghost use Rattle.pattern_course.specs.Origin.{origin_of};

use crate::types::Origin;
use pattern_steps::counts::parts_of;
use pattern_steps::numbers::{from_end, is_odd, turned_place};
use pattern_steps::steps::{step_a, step_b};
use words::limits::LONGEST;

// The step that makes the pattern of a rank, and the rank of the shorter pattern.
fn origin(n: u8, rank: u64) -> Origin
    requires { (2 ≤ n) × (n ≤ most_ports) × (rank < count n) }
    ensures { result ≡ origin_of n rank }
{
    let parts = parts_of(n);
    let size = parts.by_a + parts.by_b;
    let i = (rank / size + 1) as u8;
    let u = turned_place(is_odd(i), size, rank % size);
    if u < parts.by_a {
        Origin::ByA(i, u)
    } else {
        Origin::ByB(i, from_end(size, u))
    }
}

// The course of the pattern of a rank, from the last level down: the number of level k at place k - 1, and 0 for a level that B skips.
fn course_of(n: u8, rank: u64) -> [u8; LONGEST]
    requires { (n ≤ most_ports) × (rank < count n) }
    ensures { CourseOf result n (at n rank) }
{
    let mut levels = [0u8; LONGEST];
    let mut m = n;
    let mut left = rank;
    // a level takes one jack or two
    while 0 < m {
        let last = (m - 1) as usize;
        match origin(m, left) {
            Origin::ByA(i, s) => {
                levels[last] = i;
                left = s;
                m -= 1;
            }
            Origin::ByB(i, s) => {
                // B skips the level below
                levels[last] = i;
                levels[last - 1] = 0;
                left = s;
                m -= 2;
            }
        }
    }
    levels
}

// The pattern of a course fills the lent slice, from the empty pattern up: by B over a level that is skipped, else by A.
fn put_course(levels: [u8; LONGEST], out: &mut [u8])
    requires { (length out.old ≤ most_ports) × Course levels (length out.old) }
    ensures { out.new ≡ built levels (length out.old) }
{
    let n = out.len() as u8;
    let mut m: u8 = 0;
    // a step makes one jack or two
    while m < n {
        let at = m as usize;
        if levels[at] == 0 {
            step_b(out, m, levels[at + 1]);
            m += 2;
        } else {
            step_a(out, m, levels[at]);
            m += 1;
        }
    }
}

// The pattern of a rank fills the lent slice, which has a byte for each port, and its course is the answer.
pub fn put_with_course(rank: u64, out: &mut [u8]) -> [u8; LONGEST]
    requires { (length out.old ≤ most_ports) × (rank < count (length out.old)) }
    ensures pattern { out.new ≡ at (length out.old) rank }
    ensures course { CourseOf result (length out.old) (at (length out.old) rank) }
{
    let levels = course_of(out.len() as u8, rank);
    put_course(levels, out);
    levels
}

// The same where no course is wanted.
pub fn put_pattern(rank: u64, out: &mut [u8])
    requires { (length out.old ≤ most_ports) × (rank < count (length out.old)) }
    ensures { out.new ≡ at (length out.old) rank }
{
    put_with_course(rank, out);
}
