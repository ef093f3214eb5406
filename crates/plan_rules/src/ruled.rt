// A plan that keeps the rules, its legs by their numbers and the marks before them.
ghost use Rattle.std.specs.Prelude.{◌≡◌, true};
ghost use Rattle.plan_rules.specs.Planned.{device};
ghost use Rattle.plan_rules.specs.Rules.{plan_ruled};

use crate::{Plan, leg_of, plan_ruled};
use words::Leg;

// A plan that keeps the rules.
#[derive(Clone, Copy)]
pub struct RuledPlan {
    pub plan: Plan,
    pub ghost ruled: { plan_ruled device plan ≡ true },
}

impl RuledPlan {
    ghost use Rattle.std.specs.Prelude.{false, ◌≤◌, ◌<◌, take, MatchOption};
    ghost use Rattle.promise.specs.Plan.{leg_at, marks};
    ghost use Rattle.plan_rules.specs.Rules.{leg_is, legs_of};

    // The plan, if it keeps the rules.
    pub fn of(plan: Plan) -> Option<RuledPlan>
        ensures { MatchOption result (plan_ruled device plan ≡ false) (λ r. r.plan ≡ plan) }
    {
        if plan_ruled(plan) {
            Some(RuledPlan { plan })
        } else {
            None
        }
    }

    // The leg with number i, counted from 0. (Its rows of places are named before a place is read: else a leg costs a copy of the whole plan.)
    pub fn leg_at(self, i: u8) -> Leg
        requires { i < self.plan.legs }
        ensures { leg_is result ≡ leg_at (legs_of self.plan) i }
    {
        let at = i as usize;
        let starts = self.plan.starts;
        let runs = self.plan.runs;
        leg_of(starts[at], runs[at])
    }

    // The marks of the first i legs.
    pub fn marks_before(self, i: u8) -> u64
        requires { i ≤ self.plan.legs }
        ensures { result ≡ marks (take i (legs_of self.plan)) }
    {
        let mut total: u64 = 0;
        for at in 0..i {
            let l = self.leg_at(at);
            total += l.run + 1;
        }
        total
    }
}
