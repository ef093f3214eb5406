// The next pattern in dictionary order: the number, one more, and back; after the last comes the first.
ghost use Rattle.std.specs.Prelude.{◌≡◌, ◌≤◌, ◌<◌};
ghost use Rattle.words.specs.Meaning.{outcome_told};
ghost use Rattle.listing.specs.Count.{count};
ghost use Rattle.listing.specs.Limits.{most_ports};
ghost use Rattle.listing.specs.Neighbours.{next_rank};
ghost use Rattle.dictionary_laws.specs.Calls.{dictionary_next_of, dictionary_next_bytes};

use dictionary_walk::walk::{number_of, put_numbered};
use pattern_check::checking::check;
use pattern_steps::counts::count_of;
use words::Refusal;

// The number after a number, and 0 after the last.
fn number_after(n: u8, number: u64) -> u64
    requires { (n ≤ most_ports) × (number < count n) }
    ensures { result ≡ next_rank n number }
{
    if number + 1 == count_of(n) {
        0
    } else {
        number + 1
    }
}

// The lent pattern becomes the next one in dictionary order.
pub fn next(p: &mut [u8]) -> Result<(), Refusal>
    ensures answer { outcome_told result ≡ dictionary_next_of most_ports p.old }
    ensures bytes { p.new ≡ dictionary_next_bytes most_ports p.old }
{
    check(p)?;
    let next = number_after(p.len() as u8, number_of(p));
    put_numbered(next, p);
    Ok(())
}
