// The benches' counts added up.
ghost use Rattle.std.specs.Prelude.{◌≡◌, ◌*◌, ◌≤◌, ◌<◌, length};
ghost use Rattle.listing.specs.Limits.{largest64};
ghost use Rattle.benches_laws.specs.Calls.{most_benches, per_bench, counts_fit, added_up, sum_of};
ghost use Rattle.benches_calls.specs.Answers.{sum_told};

use crate::sharing::{marks_of, some_benches};
use crate::{Counts, Fault};
use pattern_check::checking::in_size;
use pattern_steps::counts::count_of;
use words::limits::MOST_ERRORS;

// The numbers that are lent for each bench: of its marks covered and open, and of its errors.
pub const PER_BENCH: u64 = 3;

// Whether the counts of a bench with so many marks can be. Covered and open are compared one after the other, so no sum wraps.
fn counts_fit(marks: u64, covered: u64, opened: u64, errors: u64) -> bool
    ensures { result ≡ counts_fit marks covered opened errors }
{
    covered <= marks && opened <= marks - covered && errors <= MOST_ERRORS as u64
}

// Three numbers for each bench, added up; the first bench whose counts cannot be is refused.
fn add_up(total: u64, benches: u64, counts: &[u64]) -> Result<Counts, Fault>
    requires { (total < largest64) × (1 ≤ benches) × (benches ≤ most_benches) × (length counts.now ≡ per_bench * benches) }
    ensures { sum_told result ≡ added_up total benches counts.now }
{
    let mut covered: u64 = 0;
    let mut opened: u64 = 0;
    let mut errors: u64 = 0;
    for bench in 0..benches {
        let at = (PER_BENCH * bench) as usize;
        let ran = counts[at];
        let gave_up = counts[at + 1];
        let failed = counts[at + 2];
        if !counts_fit(marks_of(total, benches, bench), ran, gave_up, failed) {
            return Err(Fault::Counts(bench));
        }
        covered += ran;
        opened += gave_up;
        errors += failed;
    }
    Ok(Counts {
        covered,
        opened,
        errors,
    })
}

// The counts of all benches.
pub fn sum(ports: u64, benches: u64, counts: &[u64]) -> Result<Counts, Fault>
    ensures { sum_told result ≡ sum_of ports benches counts.now }
{
    if !in_size(ports as usize) {
        return Err(Fault::Ports);
    }
    if !some_benches(benches) {
        return Err(Fault::Benches);
    }
    if counts.len() as u64 != PER_BENCH * benches {
        return Err(Fault::Benches);
    }
    add_up(count_of(ports as u8), benches, counts)
}
