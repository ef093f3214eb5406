// Numbers written as text.
ghost use Rattle.std.specs.Prelude.{◌≡◌, length};
ghost use Rattle.words.specs.Padded.{padded};
ghost use Rattle.text_numbers.specs.Decimal.{digits_of, most_digits};
ghost use Rattle.text_numbers.specs.Answers.{TextOf};

use crate::{MOST_DIGITS, Text};

// How many digits n has. What is left is divided, so no range has its steps.
pub fn places(n: u64) -> usize
    ensures { result ≡ length (digits_of n) }
{
    let mut k: usize = 1;
    let mut rest = n;
    while 10 <= rest {
        rest /= 10;
        k += 1;
    }
    k
}

// The digits of n, k of them, at the front of an array of zeros. They are set from the last to the first: place 1 is the last.
// Here too what is left is divided.
fn spelt(n: u64, k: usize) -> [u8; MOST_DIGITS]
    requires { k ≡ length (digits_of n) }
    ensures { result ≡ padded most_digits 0 (digits_of n) }
{
    let mut bytes = [0u8; MOST_DIGITS];
    let mut place: usize = 1;
    let mut rest = n;
    while 10 <= rest {
        bytes[k - place] = b'0' + (rest % 10) as u8;
        place += 1;
        rest /= 10;
    }
    bytes[k - place] = b'0' + rest as u8;
    bytes
}

// The text of n.
pub fn digits(n: u64) -> Text
    ensures { TextOf n result }
{
    let len = places(n);
    Text {
        bytes: spelt(n, len),
        len,
    }
}
