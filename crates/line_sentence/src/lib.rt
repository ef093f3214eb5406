// A refusal as a sentence, for people: where the fault is, the words of its number, and where the other one is.
#![tactic(auto)]

ghost use Rattle.std.specs.Prelude.{◌≡◌, ◌++◌, ◌+◌, ◌≤◌, length, take, drop};
ghost use Rattle.text_numbers.specs.Decimal.{digits_of};
ghost use Rattle.line_format.specs.Calls.{room_of, over, room_bytes};
ghost use Rattle.line_writer.specs.Answers.{written_told, Spells};
ghost use Rattle.line_refusal.specs.Words.{quoted, words_of};
ghost use Rattle.line_sentence.specs.Sentences.{placed, where_text, other_text, refusal_sentence_of, refusal_sentence_bytes};

use line_refusal::wording::refusal_words;
use line_writer::order_lines::{Spelled, and_both, and_part, begun};
use words::refusals::nowhere;
use words::{Reason, Refusal};

// The longest words of a refusal.
const WORDS_BYTES: usize = 49;

// ---- the parts before and after the words

// A place with its name, before the words.
fn place_text(name: &[u8; 5], place: u64) -> Spelled
    ensures { Spells result (placed name.now place) }
{
    and_part(begun(name, place), b": ")
}

// Where the fault is. (C asks by the number.)
fn where_text(number: u8, place: u64) -> Spelled
    ensures { Spells result (where_text number place) }
{
    if place == 0 {
        return Spelled::new();
    }
    match number {
        3..=5 => place_text(b"jack ", place),
        1..=17 => place_text(b"line ", place),
        _ => Spelled::new(),
    }
}

// A jack, after the words.
fn at_jack(earlier: u64) -> Spelled
    ensures { Spells result (quoted ", at jack " ++ digits_of earlier) }
{
    and_both(Spelled::new(), b", at jack ", earlier)
}

// Where the other one is. (C asks by the number.)
fn other_text(number: u8, earlier: u64) -> Spelled
    ensures { Spells result (other_text number earlier) }
{
    if earlier == 0 {
        return Spelled::new();
    }
    if number == 4 {
        return at_jack(earlier);
    }
    Spelled::new()
}

// ---- the words

// The words of a refusal, the first len bytes: two more than a line may have. (Fixed memory: no String.)
#[derive(Clone, Copy)]
struct Worded {
    bytes: [u8; WORDS_BYTES],
    len: usize,
}

// The words of a number. (C asks by the number.)
fn words_of(number: u8) -> Worded
    ensures front { take result.len result.bytes ≡ words_of number }
    ensures len { result.len ≡ length (words_of number) }
{
    let mut bytes = [0u8; WORDS_BYTES];
    let written = refusal_words(number, &mut bytes);
    match written {
        Ok(len) => Worded { bytes, len },
        Err(_) => Worded { bytes, len: 0 },
    }
}

// ---- all of them

// A text written into a buffer from a place on.
pub fn write_at(text: &[u8], at: usize, buf: &mut [u8])
    requires { at + length text.now ≤ length buf.old }
    ensures { buf.new ≡ take at buf.old ++ over text.now (drop at buf.old) }
{
    let end = at + text.len();
    buf[at..end].copy_from_slice(text);
}

// Three texts, as long as the parts of a sentence may be, written one behind the other at the front of a buffer.
fn write_three(a: &[u8], b: &[u8], c: &[u8], buf: &mut [u8]) -> Result<usize, Refusal>
    requires { length a.now + length b.now + length c.now ≤ 106 }
    ensures answer { written_told result ≡ room_of ((a.now ++ b.now) ++ c.now) buf.old }
    ensures bytes { buf.new ≡ room_bytes ((a.now ++ b.now) ++ c.now) buf.old }
{
    let second = a.len();
    let third = second + b.len();
    let all = third + c.len();
    if buf.len() < all {
        return Err(nowhere(Reason::Room));
    }
    write_at(a, 0, buf);
    write_at(b, second, buf);
    write_at(c, third, buf);
    Ok(all)
}

// A refusal as a sentence, written at the front of a buffer. (C asks by the number.)
pub fn refusal_sentence(
    number: u8,
    place: u64,
    earlier: u64,
    buf: &mut [u8],
) -> Result<usize, Refusal>
    ensures answer { written_told result ≡ refusal_sentence_of number place earlier buf.old }
    ensures bytes { buf.new ≡ refusal_sentence_bytes number place earlier buf.old }
{
    let before = where_text(number, place);
    let words = words_of(number);
    let after = other_text(number, earlier);
    let len = words.len;
    write_three(
        before.as_bytes(),
        &words.bytes[..len],
        after.as_bytes(),
        buf,
    )
}
