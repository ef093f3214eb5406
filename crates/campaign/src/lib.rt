// The campaign: it hands out orders and takes reports, and keeps the count of what was covered. Its state goes into each call and the new one comes back.
#![tactic(auto)]

pub mod beginning;
pub mod reports;
pub mod requests;

use campaign_state::State;
use words::{Line, Refusal};

// The kinds of a report on the standing mark: numbers, since C passes them, and any other number is refusal 14.
pub const RAN: u8 = 0;

pub const ERROR: u8 = 1;

pub const GAVE_UP: u8 = 2;

// A campaign: its state.
#[derive(Clone, Copy)]
pub struct Campaign {
    pub state: State,
}

// A text judged as a plan, and the campaign on it: its first state, or all zeros if it was refused, which `demands.Refusals.refused-zeros` speaks of.
#[derive(Clone, Copy)]
pub struct Begun {
    pub judged: Result<(), Refusal>,
    pub campaign: Campaign,
}

// The answer to a request: the line that is handed out, a movement with its order, a seat, a mark or the end; or a refusal.
pub type Answer = Result<Line, Refusal>;

// A request's answer, the campaign that it leaves, and how many bytes of the buffer its line takes. A refusal leaves a campaign too,
// the one that was, so it stands beside the answer.
#[derive(Clone, Copy)]
pub struct Requested {
    pub campaign: Campaign,
    pub answer: Answer,
    pub written: usize,
}

// A report's answer, and the campaign that it leaves: a refusal leaves one too, so it stands beside the answer.
#[derive(Clone, Copy)]
pub struct Reported {
    pub campaign: Campaign,
    pub answer: Result<(), Refusal>,
}
