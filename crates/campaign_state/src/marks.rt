// The marks of a state: the plan's, the one that stands or is next, and how many are closed.
ghost use Rattle.std.specs.Prelude.{◌≡◌};
ghost use Rattle.promise.specs.Plan.{marks};
ghost use Rattle.promise.specs.Campaign.{rank_of, number_of, closed_marks};
ghost use Rattle.plan_rules.specs.Rules.{legs_of};
ghost use Rattle.campaign_state.specs.State.{setting_of, moment_of};
ghost use Rattle.campaign_state.specs.Fitness.{InPlan};

use crate::State;
use campaign_way::along::rank_along;
use plan_rules::ruled::RuledPlan;

// The plan's marks.
pub fn plan_marks(s: State) -> u64
    requires { InPlan s }
    ensures { result ≡ marks (legs_of s.plan) }
{
    RuledPlan { plan: s.plan }.marks_before(s.plan.legs)
}

// The number of the standing or next mark; after the end of the last.
pub fn mark_number(s: State) -> u64
    requires { InPlan s }
    ensures { result ≡ number_of (setting_of s) (moment_of s) }
{
    RuledPlan { plan: s.plan }.marks_before(s.leg) + s.step
}

// Its rank.
pub fn mark_rank(s: State) -> u64
    requires { InPlan s }
    ensures { result ≡ rank_of (setting_of s) (moment_of s) }
{
    let l = RuledPlan { plan: s.plan }.leg_at(s.leg);
    rank_along(s.plan.ports, l.start, l.back, s.step)
}

// How many marks are closed: those before the standing or next one; after the end all.
pub fn closed_marks(s: State) -> u64
    requires { InPlan s }
    ensures { result ≡ closed_marks (setting_of s) (moment_of s) }
{
    if s.ended {
        plan_marks(s)
    } else {
        mark_number(s)
    }
}
