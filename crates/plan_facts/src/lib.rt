// Facts as lines of key=value, in the format of plans.
#![tactic(auto)]

ghost use Rattle.std.specs.Prelude.{◌+◌, ◌≤◌, length};
ghost use Rattle.text_numbers.specs.Decimal.{digits_of};
ghost use Rattle.plan_lines.specs.Field.{field_text};
ghost use Rattle.line_writer.specs.Answers.{Spells};
ghost use Rattle.line_putting.specs.Putting.{Puts};
ghost use Rattle.plan_facts.specs.Facts.{pair_text, cord_text, run_text};

use line_putting::put_spelled;
use line_writer::order_lines::{Spelled, and_both, and_part, begun};
use words::{Jack, Port, Signed};

// Two numbers after their key, a comma between them.
pub fn pair_line(key: &[u8], a: u64, b: u64) -> Spelled
    requires { length key.now ≤ 5 }
    ensures { Spells result (pair_text key.now a b) }
{
    and_part(and_both(begun(key, a), b",", b), b"\n")
}

// A cord: the jack, and the port that it holds.
pub fn cord_line(j: Jack, p: Port) -> Spelled
    ensures { Spells result (cord_text j.0 p.0) }
{
    pair_line(b"cord=", j.0 as u64, p.0 as u64)
}

// A number after its key.
pub fn number_line(key: &[u8], n: u64) -> Spelled
    requires { length key.now ≤ 8 }
    ensures { Spells result (field_text key.now (digits_of n)) }
{
    and_part(begun(key, n), b"\n")
}

// The same, put into a buffer from a place on; the place after it.
pub fn put_line(key: &[u8], n: u64, at: usize, buf: &mut [u8]) -> usize
    requires { (length key.now ≤ 8) × (at + length (field_text key.now (digits_of n)) ≤ length buf.old) }
    ensures { Puts at (field_text key.now (digits_of n)) buf.old result buf.new }
{
    put_spelled(number_line(key, n), at, buf)
}

// A run with its sign.
pub fn run_line(run: Signed) -> Spelled
    ensures { Spells result (run_text run) }
{
    if run.back {
        number_line(b"run=-", run.magnitude)
    } else {
        number_line(b"run=", run.magnitude)
    }
}
