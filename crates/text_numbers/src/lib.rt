// Decimal numbers as text: read and written exactly as the paper has them. What a text means stands in specs/.
#![tactic(auto)]

ghost use Rattle.std.specs.Prelude.{◌≡◌, ◌≤◌, length, take};

use words::Signed;

pub mod reading;
pub mod writing;

// The most digits that a number of 64 bits has.
pub const MOST_DIGITS: usize = 20;

// A number's text: the first len bytes. The bytes after them are 0. (Fixed memory: no String.)
#[derive(Clone, Copy)]
pub struct Text {
    pub bytes: [u8; MOST_DIGITS],
    pub len: usize,
}

impl Text {
    // The digits.
    pub fn as_bytes(&self) -> &[u8]
        requires { self.now.len ≤ length self.now.bytes }
        ensures { result.now ≡ take self.now.len self.now.bytes }
    {
        &self.bytes[..self.len]
    }
}
