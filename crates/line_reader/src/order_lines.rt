// Order lines read: newline (11), key with its `=` (7), form and count of numbers (8), jacks different and in shape (17).
ghost use Rattle.std.specs.Prelude.{◌≡◌, ◌&&◌, ◌≤◌, leb, drop};
ghost use Rattle.words.specs.Meaning.{jack_at};
ghost use Rattle.words.specs.declared.Line.TheVariants.{Movement, Seat};
ghost use Rattle.listing.specs.Limits.{most_ports, largest64};
ghost use Rattle.text_keys.specs.Parts.{newline, first_of};
ghost use Rattle.text_keys.specs.Answers.{found_is};
ghost use Rattle.line_format.specs.Format.{commas};
ghost use Rattle.line_format.specs.Reading.{numbers_in, fitting, line_in, read_of};
ghost use Rattle.line_reader.specs.Answers.{read_told, judged_told, kind_is, KeyedOf, FirstOf, listed_is, alone_of, preceded_by, made_of};

use text_keys::{find, has_key};
use text_numbers::reading::read_number;
use words::limits::MOST_PORTS;
use words::shapes::in_shape;
use words::{Jack, Line, Order, Reason, Refusal};

// The most jacks of the device, as a number that was read.
const MOST_JACKS: u64 = MOST_PORTS as u64;

// The kinds of lines, as `line_format` has them.
#[derive(Clone, Copy)]
pub enum Kind {
    Swap,
    Turn,
    Seat,
    Mark,
    End,
}

// As many numbers as a line may have. Those that it does not have are 0.
#[derive(Clone, Copy)]
pub struct Numbers {
    pub first: u64,
    pub second: u64,
    pub third: u64,
}

// The number before the first comma, and the place after that comma.
fn first_number(t: &[u8]) -> Option<(u64, usize)>
    ensures { FirstOf largest64 t.now result }
{
    let k = find(t, b',')?;
    let n = read_number(&t[..k])?;
    Some((n, k + 1))
}

// One number alone.
fn alone(found: Option<u64>) -> Option<Numbers>
    ensures { result ≡ alone_of found }
{
    Some(Numbers {
        first: found?,
        second: 0,
        third: 0,
    })
}

// A number before others.
fn preceded(n: u64, rest: Option<Numbers>) -> Option<Numbers>
    ensures { result ≡ preceded_by n rest }
{
    let Numbers { first, second, .. } = rest?;
    Some(Numbers {
        first: n,
        second: first,
        third: second,
    })
}

// The numbers that a text is, with so many commas between them.
fn numbers_in(t: &[u8], commas: u8) -> Option<Numbers>
    requires { commas ≤ 2 }
    ensures { listed_is commas result ≡ numbers_in largest64 commas t.now }
{
    if commas == 0 {
        return alone(read_number(t));
    }
    let (n, at) = first_number(t)?;
    preceded(n, numbers_in(&t[at..], commas - 1))
}

// An order that is in shape on the most jacks.
fn fitted(o: Order) -> Result<Line, Reason>
    ensures { judged_told result ≡ fitting most_ports (Movement o) }
{
    if in_shape(MOST_PORTS, o) {
        Ok(Line::Movement(o))
    } else {
        Err(Reason::Shape)
    }
}

// A seat at a jack of the device: the number is compared as it is.
fn seated(jack: u64) -> Result<Line, Reason>
    ensures { judged_told result ≡ fitting most_ports (Seat (jack_at jack)) }
{
    if 1 <= jack && jack <= MOST_JACKS {
        Ok(Line::Seat(Jack(jack as u8)))
    } else {
        Err(Reason::Shape)
    }
}

// Whether three numbers are jacks of the device, or 0: they are compared as they are.
fn all_jacks(a: u64, b: u64, c: u64) -> bool
    ensures { result ≡ (leb a most_ports && leb b most_ports && leb c most_ports) }
{
    a <= MOST_JACKS && b <= MOST_JACKS && c <= MOST_JACKS
}

// The line of a kind that has these numbers.
fn line_of(kind: Kind, x: Numbers) -> Result<Line, Reason>
    ensures { judged_told result ≡ fitting most_ports (made_of kind x) }
{
    match kind {
        Kind::Swap => {
            if all_jacks(x.first, x.second, 0) {
                return fitted(Order::Swap(Jack(x.first as u8), Jack(x.second as u8)));
            }
            Err(Reason::Shape)
        }
        Kind::Turn => {
            if all_jacks(x.first, x.second, x.third) {
                return fitted(Order::Turn(
                    Jack(x.first as u8),
                    Jack(x.second as u8),
                    Jack(x.third as u8),
                ));
            }
            Err(Reason::Shape)
        }
        Kind::Seat => seated(x.first),
        Kind::Mark => Ok(Line::Mark(x.first, x.second)),
        Kind::End => Ok(Line::End(x.first)),
    }
}

// How many commas stand between the numbers of a kind.
fn commas_of(kind: Kind) -> u8
    ensures { result ≡ commas (kind_is kind) }
{
    match kind {
        Kind::Seat | Kind::End => 0,
        Kind::Swap | Kind::Mark => 1,
        Kind::Turn => 2,
    }
}

// The kind whose key a text begins with: the text after the key decides.
fn kind_of(t: &[u8]) -> Option<(Kind, usize)>
    ensures { KeyedOf largest64 most_ports t.now result }
{
    if has_key(t, b"swap=") {
        return Some((Kind::Swap, 5));
    }
    if has_key(t, b"turn=") {
        return Some((Kind::Turn, 5));
    }
    if has_key(t, b"seat=") {
        return Some((Kind::Seat, 5));
    }
    if has_key(t, b"mark=") {
        return Some((Kind::Mark, 5));
    }
    if has_key(t, b"end=") {
        return Some((Kind::End, 4));
    }
    None
}

// The line that a text without newline is.
fn line_in(t: &[u8]) -> Result<Line, Reason>
    ensures { judged_told result ≡ line_in largest64 most_ports t.now }
{
    let (kind, at) = kind_of(t).ok_or(Reason::Key)?;
    let x = numbers_in(&t[at..], commas_of(kind)).ok_or(Reason::Number)?;
    line_of(kind, x)
}

// The first newline of a text from a place on: how far after the place.
fn newline_from(text: &[u8], place: usize) -> Option<usize>
    ensures { found_is result ≡ first_of newline (drop place text.now) }
{
    if text.len() < place {
        return None;
    }
    find(&text[place..], b'\n')
}

// The line that begins at a place of a text, and the place after its newline.
pub fn read_line(text: &[u8], place: usize) -> Result<(Line, usize), Refusal>
    ensures { read_told result ≡ read_of largest64 most_ports text.now place }
{
    let k = newline_from(text, place).ok_or(Reason::Ended)?;
    let line = line_in(&text[place..place + k])?;
    Ok((line, place + k + 1))
}
