// Reports on the standing mark.
ghost use Rattle.std.specs.Prelude.{◌≡◌, true, Ok, Err};
ghost use Rattle.words.specs.declared.Place.TheVariants.{Nowhere};
ghost use Rattle.promise.specs.Campaign.{report_to, report, report_on, stands_for, closed};
ghost use Rattle.campaign_state.specs.State.{setting_of, moment_of, at_moment};
ghost use Rattle.campaign_state.specs.Fitness.{fit, InPlan};
ghost use Rattle.campaign.specs.Calls.{answer_of};
ghost use Rattle.campaign.specs.Answers.{on_is, ReportIs, UnheardIs};

use crate::{Campaign, ERROR, GAVE_UP, RAN, Reported};
use campaign_state::State;
use campaign_state::judging::{Stance, judge};
use campaign_state::marks::mark_number;
use plan_rules::ruled::RuledPlan;
use words::Reason;
use words::limits::MOST_ERRORS;
use words::refusals::nowhere;

// The mark is closed: on to the next step, or to step 0 of the next leg; at the plan's last mark leg and step stay and the end is shown.
fn closed_mark(s: State) -> State
    requires { InPlan s }
    ensures { result ≡ at_moment (closed (setting_of s) (moment_of s)) s }
{
    let l = RuledPlan { plan: s.plan }.leg_at(s.leg);
    let next = State {
        standing: false,
        ended: false,
        ..s
    };
    if s.step < l.run {
        State {
            step: s.step + 1,
            ..next
        }
    } else if s.leg + 1 < s.plan.legs {
        State {
            leg: s.leg + 1,
            step: 0,
            ..next
        }
    } else {
        State {
            ended: true,
            ..next
        }
    }
}

// A refused report leaves the state as it was.
fn refused(s: State, reason: Reason) -> Reported
    ensures { result ≡ record { campaign = record { state = s }; answer = Err (record { reason = reason; place = Nowhere }) } }
{
    Reported {
        campaign: Campaign { state: s },
        answer: Err(nowhere(reason)),
    }
}

// A report that is taken.
fn taken(s: State) -> Reported
    ensures { result ≡ record { campaign = record { state = s }; answer = Ok tt } }
{
    Reported {
        campaign: Campaign { state: s },
        answer: Ok(()),
    }
}

// A report on a standing mark: 0 ran, 1 error, 2 gave up. After an error each jack is to be seated, from jack 1 on.
fn of_mark(s: State, kind: u8) -> Reported
    requires { (fit s ≡ true) × (s.standing ≡ true) }
    ensures { ReportIs (report kind) (answer_of (report kind) s) s result }
{
    match kind {
        RAN => taken(closed_mark(State {
            covered: s.covered + 1,
            ..s
        })),
        ERROR => {
            if MOST_ERRORS <= s.errors {
                return refused(s, Reason::Errors);
            }
            taken(State {
                errors: s.errors + 1,
                standing: false,
                seat: 1,
                ..s
            })
        }
        GAVE_UP => taken(closed_mark(State {
            opened: s.opened + 1,
            ..s
        })),
        _ => refused(s, Reason::Kind),
    }
}

// A report for which no mark stands.
fn of_none(s: State, kind: u8) -> Reported
    requires { fit s ≡ true }
    ensures { UnheardIs kind s result }
{
    let reason = if GAVE_UP < kind {
        Reason::Kind
    } else {
        Reason::NoMark
    };
    refused(s, reason)
}

// Whether the mark that stands is the one that a report is on.
fn stands_for(s: State, on: Option<u64>) -> bool
    requires { (fit s ≡ true) × (s.standing ≡ true) }
    ensures { result ≡ stands_for (setting_of s) (on_is on) (moment_of s) }
{
    match on {
        None => true,
        Some(mark) => mark == mark_number(s),
    }
}

// A report on a state: refused if that is unfit, or if no mark stands that it is on.
fn reported(s: State, on: Option<u64>, kind: u8) -> Reported
    ensures { ReportIs (report_to (on_is on) kind) (answer_of (report_to (on_is on) kind) s) s result }
{
    match judge(s) {
        Stance::Unfit => refused(s, Reason::Unfit),
        Stance::AtMark => {
            if stands_for(s, on) {
                of_mark(s, kind)
            } else {
                of_none(s, kind)
            }
        }
        Stance::AtEnd | Stance::Seat(_) | Stance::Clear | Stance::Next(_) => { of_none(s, kind) }
    }
}

impl Campaign {
    // What the bench says of the standing mark: 0 ran, 1 error, 2 gave up.
    pub fn report(self, kind: u8) -> Reported
        ensures { ReportIs (report kind) (answer_of (report kind) self.state) self.state result }
    {
        reported(self.state, None, kind)
    }

    // What it says of the mark with this number: the report if that mark stands, else it is refused.
    pub fn report_mark(self, mark: u64, kind: u8) -> Reported
        ensures { ReportIs (report_on mark kind) (answer_of (report_on mark kind) self.state) self.state result }
    {
        reported(self.state, Some(mark), kind)
    }
}
