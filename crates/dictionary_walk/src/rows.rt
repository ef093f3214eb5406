// In how many ways the jacks that are left can be filled: a row for so many jacks, by how many of them have their own port free. A row is made from the one
// before it by sums, and the other way by differences.
ghost use Rattle.std.specs.Prelude.{suc, ◌<◌};
ghost use Rattle.listing.specs.Numbers.{before};
ghost use Rattle.listing.specs.Limits.{most_ports};
ghost use Rattle.dictionary_walk.specs.Rows.{Row};

use pattern_steps::counts::count_of;
use words::limits::LONGEST;

// The row of m jacks becomes the row of m + 1: the last of it is the count, and each other the sum of the one after it and the one that stood there.
fn add_jack(row: &mut [u64; LONGEST], m: u8)
    requires { (suc m < most_ports) × Row m row.old }
    ensures { Row (suc m) row.new }
{
    let last = (m + 1) as usize;
    row[last] = count_of(m + 1);
    for k in (0..last).rev() {
        row[k] += row[k + 1];
    }
}

// The row of m jacks.
pub fn row_of(m: u8) -> [u64; LONGEST]
    requires { m < most_ports }
    ensures { Row m result }
{
    let mut row = [0u64; LONGEST];
    row[0] = 1;
    for k in 0..m {
        add_jack(&mut row, k);
    }
    row
}

// The row of m jacks becomes the row of one less; with none left it stays.
pub fn take_jack(row: &mut [u64; LONGEST], m: usize)
    requires { (m < most_ports) × Row m row.old }
    ensures { Row (before m) row.new }
{
    for k in 0..m {
        row[k] -= row[k + 1];
    }
}
