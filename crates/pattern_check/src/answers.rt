// What the check answers. What each case tells, in the paper's numbers, stands in specs/.
ghost use Rattle.std.specs.Prelude.{◌≡◌};
ghost use Rattle.words.specs.Meaning.{refusal_of};
ghost use Rattle.pattern_check.specs.Faults.{fault_told};
ghost use Rattle.pattern_check.specs.Answers.{found_is};

use words::{Jack, Place, Reason, Refusal};

// A fault of a pattern or a panel: a port outside 1..n; a port that an earlier jack, the second one, holds too; a port at its own jack.
#[derive(Clone, Copy)]
pub enum Fault {
    Outside(Jack),
    Repeated(Jack, Jack),
    OwnJack(Jack),
}

// The refusal of a fault: its number, at the jack at fault; of a repeated port with the earlier jack that holds it.
impl From<Fault> for Refusal {
    ghost from_gives = { λ f r. refusal_of r ≡ fault_told (found_is f) (tt {0}) };

    fn from(f: Fault) -> Refusal {
        let (reason, place) = match f {
            Fault::Outside(j) => (Reason::Outside, Place::AtJack(j)),
            Fault::Repeated(j, i) => (Reason::Repeated, Place::AtJacks(j, i)),
            Fault::OwnJack(j) => (Reason::OwnJack, Place::AtJack(j)),
        };
        Refusal { reason, place }
    }
}
