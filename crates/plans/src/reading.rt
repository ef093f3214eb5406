// Plans read line by line: ports, legs, and for each leg start and run.
ghost use Rattle.std.specs.Prelude.{◌≡◌, ◌≤◌, ◌<◌, length, drop};
ghost use Rattle.listing.specs.Count.{count};
ghost use Rattle.listing.specs.Limits.{most_ports, most_legs, largest64};
ghost use Rattle.words.specs.Meaning.{refusal_of};
ghost use Rattle.plans.specs.Reading.{leg_in, legs_in, with_ports};
ghost use Rattle.plans.specs.Places.{leg_told, LegWithin};
ghost use Rattle.plans.specs.Answers.{Answers, PlanTold};
ghost use Rattle.plans.specs.Calls.{read_plan_of};

use crate::ReadPlan;
use pattern_steps::counts::count_of;
use plan_lines::{Values, value_at};
use plan_rules::Plan;
use words::limits::{FEWEST_PORTS, LEG_PLACES, MOST_LEGS, MOST_PORTS};
use words::refusals::at_line;
use words::signs::with_sign;
use words::{Leg, Reason, Refusal, Signed};

// The ports of a plan: from the fewest on and below one more than the most; and its legs.
const PORTS_FROM: u64 = FEWEST_PORTS as u64;

const PORTS_BELOW: u64 = MOST_PORTS as u64 + 1;

const LEGS_BELOW: u64 = MOST_LEGS as u64 + 1;

// A refused plan: all zeros.
fn refused(f: Refusal) -> ReadPlan
    ensures { Answers most_legs (refusal_of f) result }
{
    ReadPlan {
        judged: Err(f),
        plan: Plan {
            ports: 0,
            legs: 0,
            starts: [0u64; LEG_PLACES],
            runs: [0i64; LEG_PLACES],
        },
    }
}

// The two lines of a leg that begin at a place: start, and then run.
fn leg_at(text: &[u8], at: usize, count: u64, line: u8) -> Result<(Leg, usize), Refusal>
    requires { (at ≤ length text.now) × (line < 255) }
    ensures told { leg_told text.now result ≡ leg_in largest64 count line (drop at text.now) }
    ensures within { LegWithin text.now result }
{
    let good_starts = Values {
        sign: false,
        low: 0,
        below: count,
        reason: Reason::Rank,
    };
    let (start, next) = value_at(text, at, b"start=", good_starts, line)?;
    let good_runs = Values {
        sign: true,
        low: 0,
        below: count,
        reason: Reason::Run,
    };
    let (run, after) = value_at(text, next, b"run=", good_runs, line + 1)?;
    let leg = Leg {
        start: start.magnitude,
        back: run.back,
        run: run.magnitude,
    };
    Ok((leg, after))
}

// The legs from a place on, and the end of the text after them.
fn read_legs(text: &[u8], from: usize, ports: u8, legs: u8) -> Result<Plan, Refusal>
    requires { (from ≤ length text.now) × (2 ≤ ports) × (ports ≤ most_ports) × (legs ≤ most_legs) }
    ensures { PlanTold most_legs (with_ports ports (legs_in largest64 (count ports) legs 3 (drop from text.now))) result }
{
    let count = count_of(ports);
    let mut starts = [0u64; LEG_PLACES];
    let mut runs = [0i64; LEG_PLACES];
    let mut at = from;
    for done in 0..legs {
        let (leg, next) = leg_at(text, at, count, 3 + 2 * done)?;
        let i = done as usize;
        starts[i] = leg.start;
        runs[i] = with_sign(Signed {
            back: leg.back,
            magnitude: leg.run,
        });
        at = next;
    }
    if at < text.len() {
        return Err(at_line(Reason::Ended, 3 + 2 * legs));
    }
    Ok(Plan {
        ports,
        legs,
        starts,
        runs,
    })
}

// The plan that a text is, or its refusal.
fn plan_in(text: &[u8]) -> Result<Plan, Refusal>
    ensures { PlanTold most_legs (read_plan_of text.now) result }
{
    let good_ports = Values {
        sign: false,
        low: PORTS_FROM,
        below: PORTS_BELOW,
        reason: Reason::Ports,
    };
    let (ports, at) = value_at(text, 0, b"ports=", good_ports, 1)?;
    let good_legs = Values {
        sign: false,
        low: 1,
        below: LEGS_BELOW,
        reason: Reason::Legs,
    };
    let (legs, next) = value_at(text, at, b"legs=", good_legs, 2)?;
    read_legs(text, next, ports.magnitude as u8, legs.magnitude as u8)
}

// The plan that a text is, with all zeros beside a refusal.
pub fn read_plan(text: &[u8]) -> ReadPlan
    ensures { Answers most_legs (read_plan_of text.now) result }
{
    match plan_in(text) {
        Ok(plan) => ReadPlan {
            judged: Ok(()),
            plan,
        },
        Err(f) => refused(f),
    }
}
