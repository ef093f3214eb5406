// Order lines written. A line is spelled into an array first, so its length is known before the buffer is touched.
ghost use Rattle.std.specs.Prelude.{◌≡◌, [], ◌∷◌, ◌++◌, ◌+◌, ◌≤◌, length, take};
ghost use Rattle.words.specs.declared.Line.TheVariants.{Movement};
ghost use Rattle.listing.specs.Limits.{most_ports};
ghost use Rattle.text_numbers.specs.Decimal.{digits_of};
ghost use Rattle.text_keys.specs.Parts.{comma};
ghost use Rattle.line_format.specs.Format.{unended};
ghost use Rattle.words.specs.Shape.{line_fits};
ghost use Rattle.line_format.specs.Calls.{room_of, room_bytes, write_of, write_bytes};
ghost use Rattle.line_writer.specs.Answers.{written_told, longest_line, Spells, Grown};

use text_numbers::writing::digits;
use words::limits::MOST_PORTS;
use words::refusals::nowhere;
use words::shapes::{in_shape, one_of};
use words::{Line, Order, Reason, Refusal};

// The longest line that there is: `mark=`, two numbers of 20 digits with a comma between them, and the newline.
pub const LONGEST_LINE: usize = 47;

// A text that is no longer than the longest line, the first len bytes. (Fixed memory: no String.) The
// laws speak of it by its own name, and of `text_numbers::Text` by its.
#[derive(Clone, Copy)]
pub struct Spelled {
    pub bytes: [u8; LONGEST_LINE],
    pub len: usize,
}

impl Spelled {
    // No text.
    pub fn new() -> Spelled
        ensures { Spells result [] }
    {
        Spelled {
            bytes: [0u8; LONGEST_LINE],
            len: 0,
        }
    }

    // The text.
    pub fn as_bytes(&self) -> &[u8]
        requires { self.now.len ≤ length self.now.bytes }
        ensures { result.now ≡ take self.now.len self.now.bytes }
    {
        &self.bytes[..self.len]
    }
}

// A text and a part after it.
pub fn and_part(mut s: Spelled, part: &[u8]) -> Spelled
    requires { s.len + length part.now ≤ longest_line }
    ensures { Grown s part.now result }
{
    let at = s.len;
    let end = at + part.len();
    s.bytes[at..end].copy_from_slice(part);
    s.len = end;
    s
}

// A text and a number after it.
pub fn and_number(s: Spelled, n: u64) -> Spelled
    requires { s.len + length (digits_of n) ≤ longest_line }
    ensures { Grown s (digits_of n) result }
{
    and_part(s, digits(n).as_bytes())
}

// A text, and a part and a number after it.
pub fn and_both(s: Spelled, part: &[u8], n: u64) -> Spelled
    requires { s.len + length part.now + length (digits_of n) ≤ longest_line }
    ensures { Grown s (part.now ++ digits_of n) result }
{
    and_number(and_part(s, part), n)
}

// A key and a number after it, where a text begins.
pub fn begun(key: &[u8], n: u64) -> Spelled
    requires { length key.now ≤ 8 }
    ensures { Spells result (key.now ++ digits_of n) }
{
    and_both(Spelled::new(), key, n)
}

// A text, and a comma and a number after it.
fn and_next(s: Spelled, n: u64) -> Spelled
    requires { s.len + 1 + length (digits_of n) ≤ longest_line }
    ensures { Grown s (comma ∷ digits_of n) result }
{
    and_both(s, b",", n)
}

// The text of an order without its newline.
fn order_text(o: Order) -> Spelled
    ensures text { Spells result (unended (Movement o)) }
    ensures room { result.len + 1 ≤ longest_line }
{
    match o {
        Order::Swap(a, b) => and_next(begun(b"swap=", a.0 as u64), b.0 as u64),
        Order::Turn(a, b, c) => and_next(
            and_next(begun(b"turn=", a.0 as u64), b.0 as u64),
            c.0 as u64,
        ),
    }
}

// The text of a line without its newline.
fn line_text(line: Line) -> Spelled
    ensures text { Spells result (unended line) }
    ensures room { result.len + 1 ≤ longest_line }
{
    match line {
        Line::Movement(o) => order_text(o),
        Line::Seat(jack) => begun(b"seat=", jack.0 as u64),
        Line::Mark(number, rank) => and_next(begun(b"mark=", number), rank),
        Line::End(marks) => begun(b"end=", marks),
    }
}

// Whether a line can be written: an order in shape on the most jacks, a seat at one of them, each mark and each end.
fn fits(line: Line) -> bool
    ensures { result ≡ line_fits most_ports line }
{
    match line {
        Line::Movement(o) => in_shape(MOST_PORTS, o),
        Line::Seat(jack) => one_of(MOST_PORTS, jack.0),
        Line::Mark(_, _) | Line::End(_) => true,
    }
}

// A text written at the front of a buffer.
pub fn write_text(text: &[u8], buf: &mut [u8]) -> Result<usize, Refusal>
    ensures answer { written_told result ≡ room_of text.now buf.old }
    ensures bytes { buf.new ≡ room_bytes text.now buf.old }
{
    let n = text.len();
    if buf.len() < n {
        return Err(nowhere(Reason::Room));
    }
    buf[..n].copy_from_slice(text);
    Ok(n)
}

// A line written at the front of a buffer.
pub fn write_line(line: Line, buf: &mut [u8]) -> Result<usize, Refusal>
    ensures answer { written_told result ≡ write_of most_ports line buf.old }
    ensures bytes { buf.new ≡ write_bytes most_ports line buf.old }
{
    if !fits(line) {
        return Err(nowhere(Reason::Shape));
    }
    write_text(and_part(line_text(line), b"\n").as_bytes(), buf)
}
