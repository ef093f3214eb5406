// Refusals, in the request's numbers.
ghost use Rattle.std.specs.Prelude.{◌≡◌};
ghost use Rattle.words.specs.Told.{spot_number};
ghost use Rattle.benches_calls.specs.Answers.{fault_number, fault_spot};

use crate::Fault;

// The number of a refusal, as C has it.
pub fn fault_number(f: Fault) -> u8
    ensures { result ≡ fault_number f }
{
    match f {
        Fault::Ports => 1,
        Fault::Benches => 21,
        Fault::Bench => 22,
        Fault::Counts(_) => 27,
    }
}

// The number of its place: of 27 the bench, else 0.
pub fn fault_place(f: Fault) -> u64
    ensures { result ≡ spot_number (fault_spot f) }
{
    match f {
        Fault::Ports | Fault::Benches | Fault::Bench => 0,
        Fault::Counts(bench) => bench,
    }
}
