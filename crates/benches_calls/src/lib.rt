// One campaign over several benches (request 8): the share of each bench, and the benches' counts added up. The public calls of a product of its own.
#![tactic(auto)]

pub mod adding;
pub mod faults;
pub mod sharing;

// Why a call is refused: ports not 2 to 20, benches not 1 to 64 or counts not three for each, a bench that is not below them, counts of a bench that cannot be.
#[derive(Clone, Copy)]
pub enum Fault {
    Ports,
    Benches,
    Bench,
    Counts(u64),
}

// What marks were covered, what marks are open, and how many errors there were.
#[derive(Clone, Copy)]
pub struct Counts {
    pub covered: u64,
    pub opened: u64,
    pub errors: u64,
}
