// Where each field of a state stands in its words, and what it can hold, as `face_state.States` has them: JIDROFEX_STATE_PORTS to JIDROFEX_STATE_WORDS.
use words::limits::{LEG_PLACES, LONGEST};

pub const PORTS: usize = 0;

pub const LEGS: usize = PORTS + 1;

pub const STARTS: usize = LEGS + 1;

pub const RUNS: usize = STARTS + LEG_PLACES;

pub const PANEL: usize = RUNS + LEG_PLACES;

pub const LEG: usize = PANEL + LONGEST;

pub const STEP: usize = LEG + 1;

pub const COVERED: usize = STEP + 1;

pub const OPEN: usize = COVERED + 1;

pub const ERRORS: usize = OPEN + 1;

pub const STANDING: usize = ERRORS + 1;

pub const ENDED: usize = STANDING + 1;

pub const SEAT: usize = ENDED + 1;

pub const STATE_WORDS: usize = SEAT + 1;

// A rehearsal has its fields at the same places, and its end after the step: JIDROFEX_REHEARSAL_ENDED and JIDROFEX_REHEARSAL_WORDS.
pub const REHEARSAL_ENDED: usize = STEP + 1;

pub const REHEARSAL_WORDS: usize = REHEARSAL_ENDED + 1;

// The largest number of 32 bits, which the errors are held in.
pub const LARGEST32: u64 = 4294967295;
