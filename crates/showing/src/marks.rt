// Where a mark of a plan stands: its leg and its step there, and the rehearsal that is about to hand it out.
ghost use Rattle.std.specs.Prelude.{◌≡◌, ◌<◌};
ghost use Rattle.promise.specs.Plan.{marks};
ghost use Rattle.plan_rules.specs.Rules.{legs_of};
ghost use Rattle.showing.specs.Places.{PlaceIs, rehearsal_at};

use campaign_way::along::rank_along;
use pattern_course::unranking::put_pattern;
use plan_rules::ruled::RuledPlan;
use printing::Rehearsal;
use words::limits::LONGEST;

// A leg by its number and a step of it, both counted from 0.
#[derive(Clone, Copy)]
pub struct MarkPlace {
    pub leg: u8,
    pub step: u64,
}

// The leg and the step of the mark with number k.
pub fn place_of(ruled: RuledPlan, k: u64) -> MarkPlace
    requires { k < marks (legs_of ruled.plan) }
    ensures { PlaceIs (legs_of ruled.plan) k result }
{
    let mut leg: u8 = 0;
    let mut step = k;
    // No `for` over the legs: that the mark is in one of them is what the caller requires, and nothing is left to answer after the last.
    loop {
        let run = ruled.leg_at(leg).run;
        if step <= run {
            return MarkPlace { leg, step };
        }
        step = step - run - 1;
        leg += 1;
    }
}

// The rehearsal that stands at mark k: its pattern is on the panel, and it comes next.
pub fn rehearsal_at(ruled: RuledPlan, k: u64) -> Rehearsal
    requires { k < marks (legs_of ruled.plan) }
    ensures { result ≡ rehearsal_at ruled.plan k }
{
    let MarkPlace { leg, step } = place_of(ruled, k);
    let l = ruled.leg_at(leg);
    let rank = rank_along(ruled.plan.ports, l.start, l.back, step);
    let mut panel = [0u8; LONGEST];
    put_pattern(rank, &mut panel[..ruled.plan.ports as usize]);
    Rehearsal {
        plan: ruled.plan,
        panel,
        leg,
        step,
        ended: false,
    }
}
