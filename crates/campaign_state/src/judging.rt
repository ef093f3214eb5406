// Where a state stands. Every state that the type can hold is judged, and no sum wraps.
ghost use Rattle.std.specs.Prelude.{◌≡◌, true};
ghost use Rattle.promise.specs.Tests.{same};
ghost use Rattle.promise.specs.Campaign.{wanted};
ghost use Rattle.campaign_state.specs.State.{setting_of, moment_of};
ghost use Rattle.campaign_state.specs.Fitness.{empty_from, places_fit, InPlan, IsLeg, counts_right, end_right, seat_right};
ghost use Rattle.campaign_state.specs.Standing.{stance_is, panel_stand, stand_of};

use crate::State;
use crate::marks::closed_marks;
use campaign_way::ToCome;
use campaign_way::along::rank_along;
use campaign_way::coming::coming;
use pattern_carry::panels::first_wrong;
use pattern_course::unranking::put_pattern;
use plan_rules::plan_ruled;
use plan_rules::ruled::RuledPlan;
use words::limits::{LONGEST, MOST_ERRORS};
use words::{Jack, Leg, Order};

// Where a state stands: it is unfit; a mark stands; the end is shown; a jack is to be seated; nothing is to come before the next mark; an order is to come.
// (Six ways, and no value that all but one have.)
#[derive(Clone, Copy)]
pub enum Stance {
    Unfit,
    AtMark,
    AtEnd,
    Seat(Jack),
    Clear,
    Next(Order),
}

// Whether the places of a panel beyond n ports are 0. (A chain of skip and all left its goal open.)
fn empty_from(n: u8, panel: [u8; LONGEST]) -> bool
    ensures { result ≡ empty_from n panel }
{
    for at in n as usize..LONGEST {
        if panel[at] != 0 {
            return false;
        }
    }
    true
}

// Whether plan and unused places are within the rules.
fn places_fit(s: State) -> bool
    ensures { result ≡ places_fit s }
{
    plan_ruled(s.plan) && empty_from(s.plan.ports, s.panel)
}

// Whether covered plus open is as many.
fn counts_right(s: State) -> bool
    requires { InPlan s }
    ensures { result ≡ counts_right s }
{
    let marks = closed_marks(s);
    s.covered <= marks && s.opened == marks - s.covered
}

// Whether the end, if it is shown, is shown at the plan's last mark, with none standing.
fn end_right(s: State, l: Leg) -> bool
    requires { InPlan s × IsLeg s l }
    ensures { result ≡ end_right s }
{
    !s.ended || (!s.standing && s.leg + 1 == s.plan.legs && s.step == l.run)
}

// Whether the next jack to seat, if there is one, is of the panel, with no mark standing and the end not shown.
fn seat_right(s: State) -> bool
    ensures { result ≡ seat_right s }
{
    s.seat <= s.plan.ports && (s.seat == 0 || (!s.standing && !s.ended))
}

// Whether the panel has the pattern of the standing or next mark.
fn at_pattern(s: State, l: Leg) -> bool
    requires { InPlan s × IsLeg s l }
    ensures { result ≡ same (moment_of s).panel (wanted (setting_of s) (moment_of s)) }
{
    let n = s.plan.ports;
    let rank = rank_along(n, l.start, l.back, s.step);
    let end = n as usize;
    let mut t = [0u8; LONGEST];
    put_pattern(rank, &mut t[..end]);
    first_wrong(n, s.panel, t) == 0
}

// Where a state stands, by its panel.
fn by_panel(s: State, l: Leg) -> Stance
    requires { InPlan s × IsLeg s l }
    ensures { stance_is result ≡ panel_stand (setting_of s) (moment_of s) }
{
    let stance = if s.standing {
        Stance::AtMark
    } else if s.ended {
        Stance::AtEnd
    } else if 0 < s.seat {
        Stance::Seat(Jack(s.seat))
    } else {
        return match coming(s.plan.ports, l, s.step, s.panel) {
            ToCome::Astray => Stance::Unfit,
            ToCome::Clear => Stance::Clear,
            ToCome::Next(o) => Stance::Next(o),
        };
    };
    if at_pattern(s, l) {
        stance
    } else {
        Stance::Unfit
    }
}

// Where a state stands whose places are within the rules.
fn by_moment(s: State) -> Stance
    requires { places_fit s ≡ true }
    ensures { stance_is result ≡ stand_of s }
{
    if s.plan.legs <= s.leg {
        return Stance::Unfit;
    }
    let l = RuledPlan { plan: s.plan }.leg_at(s.leg);
    if s.step <= l.run
        && s.errors <= MOST_ERRORS
        && counts_right(s)
        && end_right(s, l)
        && seat_right(s)
    {
        by_panel(s, l)
    } else {
        Stance::Unfit
    }
}

// Where a state stands.
pub fn judge(s: State) -> Stance
    ensures { stance_is result ≡ stand_of s }
{
    if places_fit(s) {
        by_moment(s)
    } else {
        Stance::Unfit
    }
}
