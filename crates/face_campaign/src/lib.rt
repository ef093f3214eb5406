// The calls for C on a campaign whose state stands in the words of the caller, and on a rehearsal (include/jidrofex.h).
#![tactic(auto)]

ghost use Rattle.std.specs.Prelude.{◌≡◌, [], ◌∷◌, length};
ghost use Rattle.promise.specs.Campaign.{request, report, report_on};
ghost use Rattle.campaign.specs.Answers.{answer_told};
ghost use Rattle.campaign_onward.specs.Answers.{status_told};
ghost use Rattle.printing.specs.Answers.{filled_told};
ghost use Rattle.face_values.specs.Answers.{five, number_told, words_told, nothing};
ghost use Rattle.face_laws.specs.Values.{order_and_bytes, order_then, bytes_and_end, where_words};
ghost use Rattle.face_laws.specs.Calls.{called_told, called_words, request_bytes, status_in, resume_told, resume_words, orders_told, orders_words, orders_bytes, begin_told, begin_words, rehearse_told, rehearse_words};

use campaign::{Answer, Campaign};
use campaign_onward::{Whereabouts, resume, status};
use face_state::places::{REHEARSAL_WORDS, STATE_WORDS};
use face_state::rehearsals::{rehearsal_in, rehearsal_out};
use face_state::{state_in, state_out};
use face_values::answers::{ANSWER_WORDS, give, give_outcome, refuse};
use face_values::lines::give_line;
use pattern_check::checking::check_panel;
use printing::{Filled, fill, rehearse};
use words::refusals::nowhere;
use words::{Reason, Refusal};

// ---- answers

// Words that are no state, or no rehearsal: 15, at no place.
fn unfit(answer: &mut [u64; ANSWER_WORDS]) -> u8
    ensures number { result ≡ 15 }
    ensures words { answer.new ≡ five (0 ∷ []) }
{
    refuse(nowhere(Reason::Unfit), answer)
}

// An order, and how many bytes its line takes.
fn give_order(order: Answer, bytes: u64, answer: &mut [u64; ANSWER_WORDS]) -> u8
    ensures number { result ≡ number_told (answer_told order) }
    ensures words { answer.new ≡ words_told (order_then bytes) (answer_told order) }
{
    match order {
        Ok(line) => give_line(line, bytes, answer),
        Err(f) => refuse(f, answer),
    }
}

// How many bytes were printed, and whether the end is among them.
fn give_filled(filled: Filled, answer: &mut [u64; ANSWER_WORDS]) -> u8
    ensures number { result ≡ number_told (filled_told filled) }
    ensures words { answer.new ≡ words_told bytes_and_end (filled_told filled) }
{
    match filled {
        Filled::Lines(n) => give(answer, n as u64, 0, 0, 0, 0),
        Filled::Ended(n) => give(answer, n as u64, 1, 0, 0, 0),
        Filled::Refused(f) => refuse(f, answer),
    }
}

// Where a campaign is.
fn give_where(found: Result<Whereabouts, Refusal>, answer: &mut [u64; ANSWER_WORDS]) -> u8
    ensures number { result ≡ number_told (status_told found) }
    ensures words { answer.new ≡ words_told where_words (status_told found) }
{
    match found {
        Err(f) => refuse(f, answer),
        Ok(w) => give(
            answer,
            w.marks,
            w.number,
            w.rank,
            w.standing as u64,
            w.ended as u64,
        ),
    }
}

// ---- the calls

// The first state of the plan that the text is.
pub fn jidrofex_begin(text: &[u8], state: &mut [u64], answer: &mut [u64; ANSWER_WORDS]) -> u8
    ensures number { result ≡ number_told (begin_told text.now state.old) }
    ensures words { answer.new ≡ words_told nothing (begin_told text.now state.old) }
    ensures left { state.new ≡ begin_words text.now state.old }
{
    if state.len() != STATE_WORDS {
        return unfit(answer);
    }
    let begun = Campaign::begin(text);
    state_out(begun.campaign.state, state);
    give_outcome(begun.judged, answer)
}

// The next order, its line at the front of the buffer.
pub fn jidrofex_request(
    state: &mut [u64],
    buffer: &mut [u8],
    answer: &mut [u64; ANSWER_WORDS],
) -> u8
    ensures number { result ≡ number_told (called_told (request (length buffer.old)) state.old) }
    ensures words { answer.new ≡ words_told order_and_bytes (called_told (request (length buffer.old)) state.old) }
    ensures left { state.new ≡ called_words (request (length buffer.old)) state.old }
    ensures bytes { buffer.new ≡ request_bytes state.old buffer.old }
{
    let Some(s) = state_in(state) else {
        return unfit(answer);
    };
    let r = Campaign { state: s }.request(buffer);
    state_out(r.campaign.state, state);
    give_order(r.answer, r.written as u64, answer)
}

// What the bench says of the standing mark.
pub fn jidrofex_report(state: &mut [u64], kind: u8, answer: &mut [u64; ANSWER_WORDS]) -> u8
    ensures number { result ≡ number_told (called_told (report kind) state.old) }
    ensures words { answer.new ≡ words_told nothing (called_told (report kind) state.old) }
    ensures left { state.new ≡ called_words (report kind) state.old }
{
    let Some(s) = state_in(state) else {
        return unfit(answer);
    };
    let r = Campaign { state: s }.report(kind);
    state_out(r.campaign.state, state);
    give_outcome(r.answer, answer)
}

// What the bench says of the mark with this number.
pub fn jidrofex_report_mark(
    state: &mut [u64],
    mark: u64,
    kind: u8,
    answer: &mut [u64; ANSWER_WORDS],
) -> u8
    ensures number { result ≡ number_told (called_told (report_on mark kind) state.old) }
    ensures words { answer.new ≡ words_told nothing (called_told (report_on mark kind) state.old) }
    ensures left { state.new ≡ called_words (report_on mark kind) state.old }
{
    let Some(s) = state_in(state) else {
        return unfit(answer);
    };
    let r = Campaign { state: s }.report_mark(mark, kind);
    state_out(r.campaign.state, state);
    give_outcome(r.answer, answer)
}

// Where a campaign is.
pub fn jidrofex_status(state: &[u64], answer: &mut [u64; ANSWER_WORDS]) -> u8
    ensures number { result ≡ number_told (status_in state.now) }
    ensures words { answer.new ≡ words_told where_words (status_in state.now) }
{
    match state_in(state) {
        Some(s) => give_where(status(Campaign { state: s }), answer),
        None => unfit(answer),
    }
}

// The rehearsal of the plan that the text is.
pub fn jidrofex_rehearse(text: &[u8], rehearsal: &mut [u64], answer: &mut [u64; ANSWER_WORDS]) -> u8
    ensures number { result ≡ number_told (rehearse_told text.now rehearsal.old) }
    ensures words { answer.new ≡ words_told nothing (rehearse_told text.now rehearsal.old) }
    ensures left { rehearsal.new ≡ rehearse_words text.now rehearsal.old }
{
    if rehearsal.len() != REHEARSAL_WORDS {
        return unfit(answer);
    }
    let rehearsed = rehearse(text);
    rehearsal_out(rehearsed.rehearsal, rehearsal);
    give_outcome(rehearsed.judged, answer)
}

// The state with the panel as it was read back and its seats begun anew, to go on from after a power cut.
pub fn jidrofex_resume(state: &mut [u64], panel: &[u8], answer: &mut [u64; ANSWER_WORDS]) -> u8
    ensures number { result ≡ number_told (resume_told panel.now state.old) }
    ensures words { answer.new ≡ words_told nothing (resume_told panel.now state.old) }
    ensures left { state.new ≡ resume_words panel.now state.old }
{
    let Some(s) = state_in(state) else {
        return match check_panel(panel) {
            Ok(()) => unfit(answer),
            Err(f) => refuse(f, answer),
        };
    };
    let r = resume(Campaign { state: s }, panel);
    state_out(r.campaign.state, state);
    give_outcome(r.judged, answer)
}

// As many whole lines as fit the buffer, every mark taken as run.
pub fn jidrofex_orders(
    rehearsal: &mut [u64],
    buffer: &mut [u8],
    answer: &mut [u64; ANSWER_WORDS],
) -> u8
    ensures number { result ≡ number_told (orders_told (length buffer.old) rehearsal.old) }
    ensures words { answer.new ≡ words_told bytes_and_end (orders_told (length buffer.old) rehearsal.old) }
    ensures left { rehearsal.new ≡ orders_words (length buffer.old) rehearsal.old }
    ensures bytes { buffer.new ≡ orders_bytes rehearsal.old buffer.old }
{
    let Some(r) = rehearsal_in(rehearsal) else {
        return unfit(answer);
    };
    let printed = fill(r, buffer);
    rehearsal_out(printed.rehearsal, rehearsal);
    give_filled(printed.filled, answer)
}
