// How the patterns are shared out among benches.
ghost use Rattle.std.specs.Prelude.{◌≡◌, ◌≤◌, ◌<◌, Ok};
ghost use Rattle.listing.specs.Limits.{largest64};
ghost use Rattle.words.specs.Told.{accepted};
ghost use Rattle.words.specs.Shape.{one_of};
ghost use Rattle.benches_laws.specs.Shares.{share, begins};
ghost use Rattle.benches_laws.specs.Plans.{leg_from};
ghost use Rattle.benches_laws.specs.Calls.{most_benches, share_of};
ghost use Rattle.benches_calls.specs.Answers.{share_told};

use crate::Fault;
use pattern_check::checking::in_size;
use pattern_steps::counts::count_of;
use words::Leg;

// The most benches.
pub const MOST_BENCHES: u64 = 64;

// Whether there are 1 bench to the most.
pub fn some_benches(benches: u64) -> bool
    ensures { result ≡ one_of most_benches benches }
{
    1 <= benches && benches <= MOST_BENCHES
}

// How many marks a bench has.
pub fn marks_of(total: u64, benches: u64, bench: u64) -> u64
    requires { (total < largest64) × (1 ≤ benches) }
    ensures { result ≡ share total benches bench }
{
    let each = total / benches;
    if bench < total % benches {
        each + 1
    } else {
        each
    }
}

// The rank that its share begins at.
fn start_of(total: u64, benches: u64, bench: u64) -> u64
    requires { (total < largest64) × (bench < benches) }
    ensures { result ≡ begins total benches bench }
{
    let each = total / benches;
    let over = total % benches;
    if bench < over {
        bench * each + bench
    } else {
        bench * each + over
    }
}

// The leg of so many marks, or no plan where there are none.
fn leg_from(start: u64, marks: u64) -> Option<Leg>
    ensures { share_told (Ok result) ≡ accepted (leg_from start marks) }
{
    if marks < 1 {
        return None;
    }
    Some(Leg {
        start,
        back: false,
        run: marks - 1,
    })
}

// The share of a bench: its plan's one leg, or no plan.
pub fn share(ports: u64, benches: u64, bench: u64) -> Result<Option<Leg>, Fault>
    ensures { share_told result ≡ share_of ports benches bench }
{
    if !in_size(ports as usize) {
        return Err(Fault::Ports);
    }
    if !some_benches(benches) {
        return Err(Fault::Benches);
    }
    if benches <= bench {
        return Err(Fault::Bench);
    }
    let total = count_of(ports as u8);
    Ok(leg_from(
        start_of(total, benches, bench),
        marks_of(total, benches, bench),
    ))
}
