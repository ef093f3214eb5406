// Where a campaign is, and going on after a power cut: a saved campaign with the panel as it was read back.
#![tactic(auto)]

ghost use Rattle.std.specs.Prelude.{◌≡◌, ◌≤◌, length};
ghost use Rattle.words.specs.Meaning.{refusal_of};
ghost use Rattle.words.specs.Told.{accepted};
ghost use Rattle.listing.specs.Limits.{most_ports};
ghost use Rattle.campaign_state.specs.Fitness.{fit, InPlan};
ghost use Rattle.campaign_onward.specs.Calls.{where_of, status_of, panel_in, seats_anew, going_on, fit_told};
ghost use Rattle.campaign_onward.specs.Answers.{status_told, ResumeIs, GoesIs};

use campaign::Campaign;
use campaign_state::State;
use campaign_state::judging::{Stance, judge};
use campaign_state::marks::{mark_number, mark_rank, plan_marks};
use pattern_carry::panels::load;
use pattern_check::checking::check_panel;
use words::refusals::nowhere;
use words::{Reason, Refusal};

// Where a campaign is: the plan's marks; the number, from 0, and the rank of the mark that stands, or else of the next, or after the end of the last; whether
// that mark stands; whether the end is shown.
#[derive(Clone, Copy)]
pub struct Whereabouts {
    pub marks: u64,
    pub number: u64,
    pub rank: u64,
    pub standing: bool,
    pub ended: bool,
}

// Whether a campaign goes on from a panel, and the campaign that does: with that panel and its seats begun anew, or as it was. A refusal leaves
// one too, so it stands beside the judgement.
#[derive(Clone, Copy)]
pub struct Resumed {
    pub campaign: Campaign,
    pub judged: Result<(), Refusal>,
}

// A campaign left as it was.
fn stays(s: State, f: Refusal) -> Resumed
    ensures { GoesIs (refusal_of f) s s result }
{
    Resumed {
        campaign: Campaign { state: s },
        judged: Err(f),
    }
}

// Whether a state is fit.
fn is_fit(s: State) -> bool
    ensures { result ≡ fit s }
{
    !matches!(judge(s), Stance::Unfit)
}

// Where a fit state is.
fn located(s: State) -> Whereabouts
    requires { InPlan s }
    ensures { result ≡ where_of s }
{
    Whereabouts {
        marks: plan_marks(s),
        number: mark_number(s),
        rank: mark_rank(s),
        standing: s.standing,
        ended: s.ended,
    }
}

// Where a campaign is; refused if its state is unfit.
pub fn status(c: Campaign) -> Result<Whereabouts, Refusal>
    ensures { status_told result ≡ status_of c.state }
{
    let s = c.state;
    if is_fit(s) {
        Ok(located(s))
    } else {
        Err(nowhere(Reason::Unfit))
    }
}

// The state with a panel put in.
fn put_in(s: State, panel: &[u8]) -> State
    requires { length panel.now ≤ most_ports }
    ensures { result ≡ panel_in panel.now s }
{
    State {
        panel: load(panel),
        ..s
    }
}

// The state with its seats begun anew: where a jack is to be seated, jack 1 is the next.
fn seats_anew(s: State) -> State
    ensures { result ≡ seats_anew s }
{
    let seat = if 0 < s.seat { 1 } else { 0 };
    State { seat, ..s }
}

// On a panel that is one: it goes on if it has the state's ports and the state is fit with it, and its seats begin anew.
fn on_panel(s: State, panel: &[u8]) -> Resumed
    requires { length panel.now ≤ most_ports }
    ensures { GoesIs (fit_told s panel.now) (going_on panel.now s) s result }
{
    let t = put_in(s, panel);
    if panel.len() == s.plan.ports as usize && is_fit(t) {
        Resumed {
            campaign: Campaign {
                state: seats_anew(t),
            },
            judged: Ok(()),
        }
    } else {
        stays(s, nowhere(Reason::Unfit))
    }
}

// The campaign that goes on from the panel as it was read back.
pub fn resume(c: Campaign, panel: &[u8]) -> Resumed
    ensures { ResumeIs c.state panel.now result }
{
    let s = c.state;
    match check_panel(panel) {
        Err(f) => stays(s, f),
        Ok(()) => on_panel(s, panel),
    }
}
