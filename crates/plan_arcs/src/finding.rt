// Where gaps begin and how long they are, by the arcs of a plan's legs.
ghost use Rattle.std.specs.Prelude.{◌≡◌, ◌≤◌, ◌<◌};
ghost use Rattle.listing.specs.Count.{count};
ghost use Rattle.plan_rules.specs.Rules.{leg_is};
ghost use Rattle.promise_arcs.specs.Finding as found;
ghost use Rattle.plan_arcs.specs.Arcs.{arc_is};

use crate::circle::{ahead, backward, onward};
use pattern_steps::counts::count_of;
use plan_rules::ruled::RuledPlan;
use words::Leg;
use words::limits::LEG_PLACES;

// An arc of the circuit: so many ranks from a first one on.
#[derive(Clone, Copy)]
pub struct Arc {
    pub first: u64,
    pub many: u64,
}

// A plan that keeps the rules, on the circuit of all ranks of its ports, as many as its size.
#[derive(Clone, Copy)]
pub struct Circuit {
    pub ruled: RuledPlan,
    pub size: u64,
    pub ghost sized: { size ≡ count ruled.plan.ports },
}

// The arc that a leg names: from its start on, or from as many steps before it as it has.
fn arc_of(c: u64, l: Leg) -> Arc
    requires { (l.start < c) × (l.run < c) }
    ensures is { arc_is result ≡ found.arc_of c (leg_is l) }
    ensures within { (result.first < c) × (result.many ≤ c) }
{
    Arc {
        first: if l.back {
            backward(c, l.start, l.run)
        } else {
            l.start
        },
        many: l.run + 1,
    }
}

// The smaller of two.
fn lesser(a: u64, b: u64) -> u64
    ensures { result ≡ found.lesser a b }
{
    a.min(b)
}

impl Circuit {
    ghost use Rattle.listing.specs.Limits.{most_legs};
    ghost use Rattle.words.specs.Padded.{padded};
    ghost use Rattle.plan_rules.specs.Rules.{legs_of};
    ghost use Rattle.promise.specs.Plan.{leg_at};
    ghost use Rattle.plan_arcs.specs.Arcs.{arcs_of};

    // The circuit of a plan.
    pub fn of(ruled: RuledPlan) -> Circuit
        ensures { result.ruled ≡ ruled }
    {
        Circuit {
            ruled,
            size: count_of(ruled.plan.ports),
        }
    }

    // The arc of the leg with number i.
    fn arc_at(self, i: u8) -> Arc
        requires { i < self.ruled.plan.legs }
        ensures is { arc_is result ≡ found.arc_of self.size (leg_at (legs_of self.ruled.plan) i) }
        ensures within { (result.first < self.size) × (result.many ≤ self.size) }
    {
        arc_of(self.size, self.ruled.leg_at(i))
    }

    // Whether a rank lies on one of the arcs. (The last arc first, as the definition has it, so that it is the invariant.)
    fn on_some(self, r: u64) -> bool
        requires { r < self.size }
        ensures { result ≡ found.on_some self.size (arcs_of self.size self.ruled.plan) r }
    {
        for i in (0..self.ruled.plan.legs).rev() {
            let a = self.arc_at(i);
            if ahead(self.size, a.first, r) < a.many {
                return true;
            }
        }
        false
    }

    // How many steps on from a rank the nearest arc begins.
    pub fn nearest(self, e: u64) -> u64
        requires { e < self.size }
        ensures { result ≡ found.nearest self.size (arcs_of self.size self.ruled.plan) e }
    {
        let mut near = self.size;
        for i in (0..self.ruled.plan.legs).rev() {
            let a = self.arc_at(i);
            near = lesser(ahead(self.size, e, a.first), near);
        }
        near
    }

    // Where a gap begins after the arc of a leg: past it, unless an arc lies there; the size stands for nowhere.
    fn opening(self, i: u8) -> u64
        requires { i < self.ruled.plan.legs }
        ensures { result ≡ found.opening self.size (arcs_of self.size self.ruled.plan) (found.arc_of self.size (leg_at (legs_of self.ruled.plan) i)) }
    {
        let a = self.arc_at(i);
        let past = onward(self.size, a.first, a.many);
        if self.on_some(past) { self.size } else { past }
    }

    // Where gaps begin, a place for each leg; nowhere beyond the legs.
    pub fn openings(self) -> [u64; LEG_PLACES]
        ensures { result ≡ padded most_legs self.size (found.openings self.size (arcs_of self.size self.ruled.plan)) }
    {
        let mut starts = [self.size; LEG_PLACES];
        for done in 0..self.ruled.plan.legs {
            starts[done as usize] = self.opening(done);
        }
        starts
    }
}

// The lowest place from rank x on where a gap begins; c where there is none.
pub fn lowest(c: u64, starts: &[u64], x: u64) -> u64
    ensures { result ≡ found.lowest c x starts.now }
{
    let mut low = c;
    for i in (0..starts.len()).rev() {
        let e = starts[i];
        if x <= e {
            low = lesser(e, low);
        }
    }
    low
}
