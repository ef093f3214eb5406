// Signed numbers taken apart, exact at the lowest 64-bit number, and put together.
ghost use Rattle.std.specs.Prelude.{◌≡◌, ◌<◌};
ghost use Rattle.words.specs.Signs.{by_sign, signed_limit, with_sign};

use crate::Signed;

// k by its sign. The magnitude of the lowest 64-bit number is 2^63.
pub fn by_sign(k: i64) -> Signed
    ensures { result ≡ by_sign k }
{
    Signed {
        back: k < 0,
        magnitude: k.unsigned_abs(),
    }
}

// The number of a sign and a magnitude below 2^63.
pub fn with_sign(s: Signed) -> i64
    requires { s.magnitude < signed_limit }
    ensures { result ≡ with_sign s }
{
    let magnitude = s.magnitude as i64;
    if s.back { -magnitude } else { magnitude }
}
