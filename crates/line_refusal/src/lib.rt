// A refusal as text: `refused=` with its number and `at=` with its place, each on a line of its own; and in words.
#![tactic(auto)]

pub mod wording;

ghost use Rattle.std.specs.Prelude.{◌≡◌, ◌≤◌};
ghost use Rattle.words.specs.Meaning.{number_of};
ghost use Rattle.line_writer.specs.Answers.{longest_line, Spells};
ghost use Rattle.line_refusal.specs.Text.{refusal_text};

use line_writer::order_lines::{Spelled, and_both, and_part, begun};
use words::Reason;
use words::refusals::reason_number;

// The text of a refusal at a place.
pub fn refusal_text(reason: Reason, place: u64) -> Spelled
    ensures spells { Spells result (refusal_text (number_of reason) place) }
    ensures len_le_longest_line { result.len ≤ longest_line }
{
    let refused = begun(b"refused=", reason_number(reason) as u64);
    let at = and_both(refused, b"\nat=", place);
    and_part(at, b"\n")
}
