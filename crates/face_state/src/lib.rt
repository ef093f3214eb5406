// The state of a campaign in words, and a rehearsal: each field at its place.
#![tactic(auto)]

pub mod places;
pub mod rehearsals;

ghost use Rattle.std.specs.Prelude.{◌≡◌, ◌<◌, length, get_or};
ghost use Rattle.face_state.specs.States.{state_count, last_count, run_bits, run_in, last_words, state_words, limits, within, word, state_at, state_in};
ghost use Rattle.face_state.specs.Held.{held_is, WordsFit};

use crate::places::{
    COVERED, ENDED, ERRORS, LARGEST32, LEG, LEGS, OPEN, PANEL, PORTS, RUNS, SEAT, STANDING, STARTS,
    STATE_WORDS, STEP,
};
use campaign_state::State;
use face_values::lines::LARGEST8;
use plan_rules::Plan;
use words::limits::{LARGEST, LEG_PLACES, LONGEST, SIGNED_LIMIT};
use words::signs::by_sign;

// ---- the state that words are

// What the field at a place can hold at most.
fn limit_of(at: usize) -> u64
    requires { at < state_count }
    ensures { result ≡ get_or limits at 0 }
{
    if at < STARTS {
        return LARGEST8;
    }
    if at < PANEL {
        return LARGEST;
    }
    if at < STEP {
        return LARGEST8;
    }
    if at < ERRORS {
        return LARGEST;
    }
    if at < STANDING {
        return LARGEST32;
    }
    if at < SEAT {
        return 1;
    }
    LARGEST8
}

// Whether there are as many words as a state has, and each is one that its field holds. (The first that is not decides, so it returns from the loop.)
fn words_fit(words: &[u64]) -> bool
    ensures { result ≡ within words.now limits }
{
    if words.len() != STATE_WORDS {
        return false;
    }
    for at in 0..STATE_WORDS {
        if limit_of(at) < words[at] {
            return false;
        }
    }
    true
}

// The run of 64 bits: from 2^63 on it is negative.
fn run_in(w: u64) -> i64
    ensures { result ≡ run_in w }
{
    if w < SIGNED_LIMIT {
        w as i64
    } else {
        -1 - (LARGEST - w) as i64
    }
}

// The plan: its legs' starts and runs, one leg after the other.
fn plan_in(words: &[u64]) -> Plan
    requires { WordsFit words.now }
    ensures { result ≡ (state_at words.now).plan }
{
    let mut starts = [0u64; LEG_PLACES];
    let mut runs = [0i64; LEG_PLACES];
    for i in 0..LEG_PLACES {
        starts[i] = words[STARTS + i];
        runs[i] = run_in(words[RUNS + i]);
    }
    Plan {
        ports: words[PORTS] as u8,
        legs: words[LEGS] as u8,
        starts,
        runs,
    }
}

// The panel.
fn panel_in(words: &[u64]) -> [u8; LONGEST]
    requires { WordsFit words.now }
    ensures { result ≡ (state_at words.now).panel }
{
    let mut panel = [0u8; LONGEST];
    for i in 0..LONGEST {
        panel[i] = words[PANEL + i] as u8;
    }
    panel
}

// The state whose fields stand at their places.
fn state_at(words: &[u64]) -> State
    requires { WordsFit words.now }
    ensures { result ≡ state_at words.now }
{
    State {
        plan: plan_in(words),
        panel: panel_in(words),
        leg: words[LEG] as u8,
        step: words[STEP],
        covered: words[COVERED],
        opened: words[OPEN],
        errors: words[ERRORS] as u32,
        standing: words[STANDING] == 1,
        ended: words[ENDED] == 1,
        seat: words[SEAT] as u8,
    }
}

// The state that words are.
pub fn state_in(words: &[u64]) -> Option<State>
    ensures { held_is result ≡ state_in words.now }
{
    if words_fit(words) {
        Some(state_at(words))
    } else {
        None
    }
}

// ---- a state in words

// The 64 bits of a run.
fn run_bits(run: i64) -> u64
    ensures { result ≡ run_bits run }
{
    let by = by_sign(run);
    if by.back {
        LARGEST - (by.magnitude - 1)
    } else {
        by.magnitude
    }
}

// The words from the leg on: leg, step, covered, open, errors, standing, ended, seat.
fn last_word(s: State, i: usize) -> u64
    requires { i < last_count }
    ensures { result ≡ word (last_words s) i }
{
    match i {
        0 => s.leg as u64,
        1 => s.step,
        2 => s.covered,
        3 => s.opened,
        4 => s.errors as u64,
        5 => s.standing as u64,
        6 => s.ended as u64,
        _ => s.seat as u64,
    }
}

// The word at a place of a state. (Each row of places is named before its place is read: else every word costs a copy of the whole state.)
pub fn word_of(s: State, at: usize) -> u64
    requires { at < state_count }
    ensures { result ≡ word (state_words s) at }
{
    let plan = s.plan;
    if at < LEGS {
        return plan.ports as u64;
    }
    if at < STARTS {
        return plan.legs as u64;
    }
    if at < RUNS {
        let starts = plan.starts;
        return starts[at - STARTS];
    }
    if at < PANEL {
        let runs = plan.runs;
        return run_bits(runs[at - RUNS]);
    }
    if at < LEG {
        let panel = s.panel;
        return panel[at - PANEL] as u64;
    }
    last_word(s, at - LEG)
}

// A state put into the words that it takes.
pub fn state_out(s: State, words: &mut [u64])
    requires { length words.old ≡ state_count }
    ensures { words.new ≡ state_words s }
{
    for at in 0..STATE_WORDS {
        words[at] = word_of(s, at);
    }
}
