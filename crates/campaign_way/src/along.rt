// The ranks that a leg names, round the circuit.
ghost use Rattle.std.specs.Prelude.{◌≡◌, ◌≤◌, ◌<◌};
ghost use Rattle.listing.specs.Count.{count};
ghost use Rattle.listing.specs.Limits.{most_ports};
ghost use Rattle.promise.specs.Plan.{stepped};
ghost use Rattle.promise.specs.Derangements.{derangements};

use pattern_steps::counts::count_of;
use plan_arcs::circle::{backward, onward};

// The rank k steps on from a rank, or k steps back, round the circuit. (Which way is data of the leg.)
pub fn rank_along(n: u8, start: u64, back: bool, k: u64) -> u64
    requires { (2 ≤ n) × (n ≤ most_ports) × (start < count n) × (k < count n) }
    ensures { result ≡ stepped (derangements n) back start k }
{
    let total = count_of(n);
    if back {
        backward(total, start, k)
    } else {
        onward(total, start, k)
    }
}
