// Texts put into a buffer one behind the other, each from a place on; the answer is the place after it.
#![tactic(auto)]

ghost use Rattle.std.specs.Prelude.{◌++◌, ◌+◌, ◌≤◌, length, take};
ghost use Rattle.text_numbers.specs.Decimal.{digits_of};
ghost use Rattle.line_putting.specs.Putting.{Puts};

use line_sentence::write_at;
use line_writer::order_lines::{Spelled, begun};

// A text.
pub fn put_text(text: &[u8], at: usize, buf: &mut [u8]) -> usize
    requires { at + length text.now ≤ length buf.old }
    ensures { Puts at text.now buf.old result buf.new }
{
    write_at(text, at, buf);
    at + text.len()
}

// What is spelled.
pub fn put_spelled(s: Spelled, at: usize, buf: &mut [u8]) -> usize
    requires { (s.len ≤ length s.bytes) × (at + s.len ≤ length buf.old) }
    ensures { Puts at (take s.len s.bytes) buf.old result buf.new }
{
    put_text(s.as_bytes(), at, buf)
}

// A number after its key. (A line has a newline more, `plan_facts::put_line`.)
pub fn put_number(key: &[u8], n: u64, at: usize, buf: &mut [u8]) -> usize
    requires { (length key.now ≤ 8) × (at + length (key.now ++ digits_of n) ≤ length buf.old) }
    ensures { Puts at (key.now ++ digits_of n) buf.old result buf.new }
{
    put_spelled(begun(key, n), at, buf)
}
