// Requests: the next movement order, the next jack to seat, the mark, or the end, with its line.
ghost use Rattle.std.specs.Prelude.{◌≡◌, true, ◌≤◌, length, Err};
ghost use Rattle.listing.specs.Limits.{most_ports};
ghost use Rattle.words.specs.Shape.{line_fits};
ghost use Rattle.words.specs.declared.Place.TheVariants.{Nowhere};
ghost use Rattle.words.specs.declared.Line.TheVariants.{Movement, Seat, Mark};
ghost use Rattle.promise.specs.Campaign.{request, closed_marks, rank_of};
ghost use Rattle.line_format.specs.Calls.{over};
ghost use Rattle.campaign_state.specs.State.{setting_of, moment_of, answer_text};
ghost use Rattle.campaign_state.specs.Fitness.{InPlan};
ghost use Rattle.campaign.specs.Calls.{answer_of, after, bytes_of, line_is, roomed};
ghost use Rattle.campaign.specs.Answers.{RequestIs};

use crate::{Campaign, Requested};
use campaign_state::State;
use campaign_state::judging::{Stance, judge};
use campaign_state::marks::{closed_marks, mark_rank};
use line_writer::order_lines::write_line;
use pattern_carry::panels::after_order;
use words::refusals::nowhere;
use words::{Jack, Line, Order, Reason};

// The mark that is next, with its number and rank.
fn next_mark(s: State) -> Line
    requires { InPlan s }
    ensures { result ≡ Mark (closed_marks (setting_of s) (moment_of s)) (rank_of (setting_of s) (moment_of s)) }
{
    Line::Mark(closed_marks(s), mark_rank(s))
}

// The state after a movement order, which counts as carried out.
fn after_movement(s: State, o: Order) -> State
    requires { (s.plan.ports ≤ most_ports) × (line_fits s.plan.ports (Movement o) ≡ true) }
    ensures { result ≡ after (request 0) (line_is (Movement o)) s }
{
    State {
        panel: after_order(s.plan.ports, s.panel, o),
        ..s
    }
}

// The state after a seat: the next jack is to be seated, none after the last.
fn after_seat(s: State, j: Jack) -> State
    requires { (s.plan.ports ≤ most_ports) × (line_fits s.plan.ports (Seat j) ≡ true) }
    ensures { result ≡ after (request 0) (line_is (Seat j)) s }
{
    let seat = if j.0 == s.plan.ports { 0 } else { j.0 + 1 };
    State { seat, ..s }
}

// The state after a line was handed out: an order moves the panel, a seat leaves the next one, a mark stands, the end leaves the state as it is.
fn after_line(s: State, line: Line) -> State
    requires { (s.plan.ports ≤ most_ports) × (line_fits s.plan.ports line ≡ true) }
    ensures { result ≡ after (request 0) (line_is line) s }
{
    match line {
        Line::Movement(o) => after_movement(s, o),
        Line::Seat(j) => after_seat(s, j),
        Line::Mark(_, _) => State {
            standing: true,
            ..s
        },
        Line::End(_) => s,
    }
}

// A refused request leaves the state and the buffer as they were.
fn refused(s: State, reason: Reason) -> Requested
    ensures { result ≡ record { campaign = record { state = s }; answer = Err (record { reason = reason; place = Nowhere }); written = 0 } }
{
    Requested {
        campaign: Campaign { state: s },
        answer: Err(nowhere(reason)),
        written: 0,
    }
}

// A line handed out, where the buffer has room for it.
fn hand_out(s: State, line: Line, buf: &mut [u8]) -> Requested
    requires { (s.plan.ports ≤ most_ports) × (line_fits s.plan.ports line ≡ true) }
    ensures told { RequestIs (request (length buf.old)) (roomed (length buf.old) (line_is line)) s result }
    ensures bytes { buf.new ≡ over (answer_text (roomed (length buf.old) (line_is line))) buf.old }
{
    match write_line(line, buf) {
        Err(f) => Requested {
            campaign: Campaign { state: s },
            answer: Err(f),
            written: 0,
        },
        Ok(n) => Requested {
            campaign: Campaign {
                state: after_line(s, line),
            },
            answer: Ok(line),
            written: n,
        },
    }
}

impl Campaign {
    // The next order, with its line at the front of the buffer.
    pub fn request(self, buf: &mut [u8]) -> Requested
        ensures told { RequestIs (request (length buf.old)) (answer_of (request (length buf.old)) self.state) self.state result }
        ensures bytes { buf.new ≡ bytes_of self.state buf.old }
    {
        let s = self.state;
        match judge(s) {
            Stance::Unfit => refused(s, Reason::Unfit),
            Stance::AtMark => refused(s, Reason::MarkStands),
            Stance::AtEnd => hand_out(s, Line::End(closed_marks(s)), buf),
            Stance::Seat(j) => hand_out(s, Line::Seat(j), buf),
            Stance::Clear => hand_out(s, next_mark(s), buf),
            Stance::Next(o) => hand_out(s, Line::Movement(o), buf),
        }
    }
}
