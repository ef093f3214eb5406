// The gaps of a plan: counted, with the ranks that they leave named, and written into a lent slice.
ghost use Rattle.std.specs.Prelude.{◌≡◌, ◌≤◌, length, MatchOption};
ghost use Rattle.listing.specs.Limits.{most_legs};
ghost use Rattle.words.specs.Padded.{padded};
ghost use Rattle.promise_arcs.specs.Finding as found;
ghost use Rattle.promise_arcs.specs.Named.{numbers};
ghost use Rattle.line_format.specs.Calls.{over};
ghost use Rattle.plan_arcs.specs.Arcs.{Tallies, gaps_in, arcs_of, gap_first, GapIs};

use crate::finding::{Arc, Circuit, lowest};
use plan_rules::ruled::RuledPlan;

// JIDROFEX_GAP_NUMBERS: enough numbers for the gaps of any plan. Round a circuit two for each leg are; there is room for one gap more.
pub const GAP_NUMBERS: usize = 34;

// How many different ranks a plan names, and how many gaps it leaves.
#[derive(Clone, Copy)]
pub struct Tally {
    pub named: u64,
    pub gaps: u64,
}

// The next gap from rank x on, if there is one.
fn gap_from(circuit: Circuit, starts: &[u64], x: u64) -> Option<Arc>
    requires { starts.now ≡ padded most_legs circuit.size (found.openings circuit.size (arcs_of circuit.size circuit.ruled.plan)) }
    ensures { let c = circuit.size in MatchOption result (c ≤ gap_first c circuit.ruled.plan x) (λ g. GapIs c circuit.ruled.plan x g) }
{
    let first = lowest(circuit.size, starts, x);
    if first < circuit.size {
        Some(Arc {
            first,
            many: circuit.nearest(first),
        })
    } else {
        None
    }
}

// The ranks named and the gaps, counted: each gap takes its ranks off the circuit's.
pub fn count_named(p: RuledPlan) -> Tally
    ensures { Tallies p.plan result }
{
    let circuit = Circuit::of(p);
    let starts = circuit.openings();
    let mut left = circuit.size;
    let mut gaps: u64 = 0;
    let mut x: u64 = 0;
    while let Some(gap) = gap_from(circuit, &starts, x) {
        left -= gap.many;
        gaps += 1;
        x = gap.first + 1;
    }
    Tally { named: left, gaps }
}

// The gaps at the front of a slice, two numbers for each.
pub fn put_gaps(p: RuledPlan, out: &mut [u64])
    requires { length (numbers (gaps_in p.plan)) ≤ length out.old }
    ensures { out.new ≡ over (numbers (gaps_in p.plan)) out.old }
{
    let circuit = Circuit::of(p);
    let starts = circuit.openings();
    let mut at: usize = 0;
    let mut x: u64 = 0;
    while let Some(gap) = gap_from(circuit, &starts, x) {
        out[at] = gap.first;
        out[at + 1] = gap.many;
        at += 2;
        x = gap.first + 1;
    }
}
