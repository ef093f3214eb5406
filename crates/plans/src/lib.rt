// Plans read from text: the plan, or the refusal with its line. What a text means stands in specs/.
#![tactic(auto)]

use plan_rules::Plan;
use words::Refusal;

pub mod reading;

// A text judged, and the plan that it is: all zeros if it was refused, which `demands.Refusals.refused-zeros` and the calls for C speak of.
#[derive(Clone, Copy)]
pub struct ReadPlan {
    pub judged: Result<(), Refusal>,
    pub plan: Plan,
}
