// A rehearsal and the state of a campaign that it stands for.
ghost use Rattle.std.specs.Prelude.{◌≡◌};
ghost use Rattle.printing.specs.Rehearsals.{rehearsal_of, ran_of, state_of};

use crate::Rehearsal;
use campaign_state::State;
use plan_rules::ruled::RuledPlan;

// What a rehearsal keeps of a state. (Two types, so no struct update.)
pub fn rehearsal_of(s: State) -> Rehearsal
    ensures { result ≡ rehearsal_of s }
{
    let State { plan, panel, .. } = s;
    Rehearsal {
        plan,
        panel,
        leg: s.leg,
        step: s.step,
        ended: s.ended,
    }
}

// The marks that are taken as run: those before the next one, all after the end; none where plan, leg or step is outside the rules.
fn ran_of(r: Rehearsal) -> u64
    ensures { result ≡ ran_of r }
{
    match RuledPlan::of(r.plan) {
        Some(plan) if r.leg < r.plan.legs && r.step <= plan.leg_at(r.leg).run => {
            if r.ended {
                plan.marks_before(r.plan.legs)
            } else {
                plan.marks_before(r.leg) + r.step
            }
        }
        _ => 0,
    }
}

// The state of a campaign that a rehearsal stands for. (Two types, so no struct update.)
pub fn state_of(r: Rehearsal) -> State
    ensures { result ≡ state_of r }
{
    let Rehearsal { plan, panel, .. } = r;
    State {
        plan,
        panel,
        leg: r.leg,
        step: r.step,
        covered: ran_of(r),
        opened: 0,
        errors: 0,
        standing: false,
        ended: r.ended,
        seat: 0,
    }
}
