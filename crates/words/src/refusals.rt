// Refusals: made at a place, and told in the paper's numbers.
ghost use Rattle.std.specs.Prelude.{◌≡◌};
ghost use Rattle.words.specs.Told.{spot_number, earlier_number};
ghost use Rattle.words.specs.Meaning.{number_of, spot_of};
ghost use Rattle.words.specs.declared.Place.TheVariants.{Nowhere, AtLine};

use crate::{Place, Reason, Refusal};

// A refusal at no place that is said.
pub fn nowhere(reason: Reason) -> Refusal
    ensures { result ≡ record { reason = reason; place = Nowhere } }
{
    Refusal {
        reason,
        place: Place::Nowhere,
    }
}

// A reason alone is a refusal at no place: `?` makes it so.
impl From<Reason> for Refusal {
    ghost from_gives = { λ reason refusal. refusal ≡ record { reason = reason; place = Nowhere } };

    fn from(reason: Reason) -> Refusal {
        nowhere(reason)
    }
}

// A refusal at a line.
pub fn at_line(reason: Reason, line: u8) -> Refusal
    ensures { result ≡ record { reason = reason; place = AtLine line } }
{
    Refusal {
        reason,
        place: Place::AtLine(line),
    }
}

// The number of a refusal, as C has it.
pub fn reason_number(reason: Reason) -> u8
    ensures { result ≡ number_of reason }
{
    match reason {
        Reason::Ports => 1,
        Reason::Room => 2,
        Reason::Outside => 3,
        Reason::Repeated => 4,
        Reason::OwnJack => 5,
        Reason::Rank => 6,
        Reason::Key => 7,
        Reason::Number => 8,
        Reason::Legs => 9,
        Reason::Run => 10,
        Reason::Ended => 11,
        Reason::NoMark => 12,
        Reason::MarkStands => 13,
        Reason::Kind => 14,
        Reason::Unfit => 15,
        Reason::Errors => 16,
        Reason::Shape => 17,
    }
}

// The number of a place, as C has it: 0 where none is said.
pub fn place_number(place: Place) -> u8
    ensures { result ≡ spot_number (spot_of place) }
{
    match place {
        Place::Nowhere => 0,
        Place::AtJack(j) | Place::AtJacks(j, _) => j.0,
        Place::AtLine(l) => l,
    }
}

// The second number of a refusal: the jack of the earlier equal entry, 0 where there is none.
pub fn earlier_number(place: Place) -> u8
    ensures { result ≡ earlier_number (spot_of place) }
{
    match place {
        Place::AtJacks(_, i) => i.0,
        Place::AtLine(_) | Place::AtJack(_) | Place::Nowhere => 0,
    }
}
