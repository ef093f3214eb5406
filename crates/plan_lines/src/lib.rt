// One line of key=value from a place of a text on: newline, key, number and value, in this order. A place is the index of a byte.
#![tactic(auto, unfolding(crate::specs::Field::between))]

ghost use Rattle.std.specs.Prelude.{◌≡◌, ◌≤◌, length, drop};
ghost use Rattle.listing.specs.Limits.{largest64};
ghost use Rattle.text_numbers.specs.Answers.{signed_is};
ghost use Rattle.plan_lines.specs.Field.{line_in, between, value_in, field_in};
ghost use Rattle.plan_lines.specs.Places.{field_of, bounds_told, BoundsWithin, line_told, LineWithin};

use text_keys::{find, has_key};
use text_numbers::reading::{ahead, read_number, read_signed};
use words::refusals::at_line;
use words::{Reason, Refusal, Signed};

// The values that a line may have: with `-` before them or not, from low on and below `below`. Any other is refused.
#[derive(Clone, Copy)]
pub struct Values {
    pub sign: bool,
    pub low: u64,
    pub below: u64,
    pub reason: Reason,
}

// Whether a value is good.
fn good(values: Values, v: u64) -> bool
    ensures { result ≡ between values.low values.below v }
{
    values.low <= v && v < values.below
}

// The bounds of the value in the line that begins at a place: newline and key.
fn line_at(text: &[u8], at: usize, key: &[u8], line: u8) -> Result<(usize, usize), Refusal>
    requires { at ≤ length text.now }
    ensures told { bounds_told text.now result ≡ line_in key.now line (drop at text.now) }
    ensures within { BoundsWithin text.now result }
{
    let to = at + find(&text[at..], b'\n').ok_or(at_line(Reason::Ended, line))?;
    if has_key(&text[at..to], key) {
        Ok((at + key.len(), to))
    } else {
        Err(at_line(Reason::Key, line))
    }
}

// The number that a text is: with `-` before it only where a sign may stand.
// (Whether a sign may stand is data of the key.)
fn value_in(t: &[u8], sign: bool) -> Option<Signed>
    ensures { signed_is result ≡ value_in sign largest64 t.now }
{
    if sign {
        read_signed(t)
    } else {
        ahead(read_number(t))
    }
}

// The line with a number that begins at a place.
pub fn value_at(
    text: &[u8],
    at: usize,
    key: &[u8],
    values: Values,
    line: u8,
) -> Result<(Signed, usize), Refusal>
    requires { at ≤ length text.now }
    ensures told { line_told text.now result ≡ field_in (field_of largest64 key.now values) line (drop at text.now) }
    ensures within { LineWithin text.now result }
{
    let (from, to) = line_at(text, at, key, line)?;
    let value = value_in(&text[from..to], values.sign).ok_or(at_line(Reason::Number, line))?;
    if good(values, value.magnitude) {
        Ok((value, to + 1))
    } else {
        Err(at_line(values.reason, line))
    }
}
