// Numbers read from text. Every byte of the text is judged; no sum wraps.
#![tactic(auto, unfolding(crate::specs::Decimal::digit_in, crate::specs::Decimal::up_to))]

ghost use Rattle.std.specs.Prelude.{◌≡◌};
ghost use Rattle.std.proofs.Math.Option.{some};
ghost use Rattle.listing.specs.Limits.{largest64};
ghost use Rattle.text_numbers.specs.Decimal.{digit_in, and_digit, up_to, number_up_to};
ghost use Rattle.text_numbers.specs.Signed.{plain, negative, signed_up_to};
ghost use Rattle.text_numbers.specs.Answers.{read_is, signed_is};

use words::Signed;

// The digit that a byte is.
fn digit_in(b: u8) -> Option<u64>
    ensures { read_is result ≡ digit_in b }
{
    if b.is_ascii_digit() {
        Some((b - b'0') as u64)
    } else {
        None
    }
}

// The number v and the digit d after it, where that is a number of 64 bits: v is not 0, and ten times v and d fit.
fn and_digit(v: u64, d: u64) -> Option<u64>
    ensures { read_is result ≡ up_to largest64 (and_digit (some v) (some d)) }
{
    if v < 1 {
        return None;
    }
    v.checked_mul(10)?.checked_add(d)
}

// What was found so far, and the byte b after it.
fn and_byte(found: Option<u64>, b: u8) -> Option<u64>
    ensures { read_is result ≡ up_to largest64 (and_digit (read_is found) (digit_in b)) }
{
    and_digit(found?, digit_in(b)?)
}

// The number of 64 bits that a text is.
pub fn read_number(t: &[u8]) -> Option<u64>
    ensures { read_is result ≡ number_up_to largest64 t.now }
{
    let (first, rest) = t.split_first()?;
    let mut found = digit_in(*first);
    for b in rest {
        found = and_byte(found, *b);
    }
    found
}

// What was found, with no sign before it.
pub fn ahead(found: Option<u64>) -> Option<Signed>
    ensures { signed_is result ≡ plain (read_is found) }
{
    Some(Signed {
        back: false,
        magnitude: found?,
    })
}

// What was found, with `-` before it: not before 0.
fn behind(found: Option<u64>) -> Option<Signed>
    ensures { signed_is result ≡ negative (read_is found) }
{
    let magnitude = found?;
    if magnitude < 1 {
        return None;
    }
    Some(Signed {
        back: true,
        magnitude,
    })
}

// The signed number that a text is: `-` only before a magnitude that is not 0.
pub fn read_signed(t: &[u8]) -> Option<Signed>
    ensures { signed_is result ≡ signed_up_to largest64 t.now }
{
    match t.strip_prefix(b"-") {
        Some(rest) => behind(read_number(rest)),
        None => ahead(read_number(t)),
    }
}
