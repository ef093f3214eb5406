// A plan in places, and the legs that they hold: whether they are within the rules, and where they are a leg by its number and the marks before it. Inner pieces of the campaign.
#![tactic(auto)]

pub mod ruled;

ghost use Rattle.std.specs.Prelude.{◌≡◌, cond};
ghost use Rattle.plan_rules.specs.Places.{leg_held};
ghost use Rattle.plan_rules.specs.Rules.{leg_is, places, leg_ruled, unused, places_ruled, plan_ruled};
ghost use Rattle.plan_rules.specs.Planned.{device};

use pattern_steps::counts::count_of;
use words::Leg;
use words::limits::{FEWEST_PORTS, LEG_PLACES, MOST_LEGS, MOST_PORTS};
use words::signs::by_sign;

// A plan: its ports, its legs, and for each leg the rank it starts at and its run. The places beyond the legs are 0.
// The words of a state for C are two rows of places and a count, and `plan_rules.Places` speaks of such rows.
#[derive(Clone, Copy)]
pub struct Plan {
    pub ports: u8,
    pub legs: u8,
    pub starts: [u64; LEG_PLACES],
    pub runs: [i64; LEG_PLACES],
}

// The leg that a start and a run are.
fn leg_of(start: u64, run: i64) -> Leg
    ensures { leg_is result ≡ leg_held start run }
{
    let by = by_sign(run);
    Leg {
        start,
        back: by.back,
        run: by.magnitude,
    }
}

// Whether a place is right: a leg within the rules or, beyond the legs, 0. (Whether it has a leg is data of the plan.)
fn place_ruled(size: u64, used: bool, l: Leg) -> bool
    ensures { result ≡ cond used (leg_ruled size (leg_is l)) (unused (leg_is l)) }
{
    if used {
        l.start < size && l.run < size
    } else {
        l.start == 0 && l.run == 0
    }
}

// Whether all places are right. (Two arrays and the place decide, and the first that is not returns.)
fn places_ruled(p: Plan, size: u64) -> bool
    ensures { result ≡ places_ruled size p.legs (places p) }
{
    let legs = p.legs as usize;
    for at in 0..LEG_PLACES {
        if !place_ruled(size, at < legs, leg_of(p.starts[at], p.runs[at])) {
            return false;
        }
    }
    true
}

// Whether a plan is within the rules.
pub fn plan_ruled(p: Plan) -> bool
    ensures { result ≡ plan_ruled device p }
{
    FEWEST_PORTS <= p.ports
        && p.ports <= MOST_PORTS
        && 1 <= p.legs
        && p.legs <= MOST_LEGS
        && places_ruled(p, count_of(p.ports))
}
