// The beginning of a campaign: a plan's text to its first state.
ghost use Rattle.std.specs.Prelude.{◌≡◌, ◌≤◌};
ghost use Rattle.listing.specs.Limits.{most_ports};
ghost use Rattle.campaign.specs.Calls.{first_state};
ghost use Rattle.campaign.specs.Answers.{BeginIs};

use crate::{Begun, Campaign};
use campaign_state::State;
use pattern_carry::panels::home_panel;
use plan_rules::Plan;
use plans::reading::read_plan;

// The first state of a plan.
fn first_state(p: Plan) -> State
    requires { p.ports ≤ most_ports }
    ensures { result ≡ first_state p }
{
    State {
        plan: p,
        panel: home_panel(p.ports),
        leg: 0,
        step: 0,
        covered: 0,
        opened: 0,
        errors: 0,
        standing: false,
        ended: false,
        seat: 0,
    }
}

impl Campaign {
    // The campaign on the plan that a text is.
    pub fn begin(text: &[u8]) -> Begun
        ensures { BeginIs text.now result }
    {
        let read = read_plan(text);
        Begun {
            judged: read.judged,
            campaign: Campaign {
                state: first_state(read.plan),
            },
        }
    }
}
