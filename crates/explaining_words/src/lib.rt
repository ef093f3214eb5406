// A refusal of a pattern written: its number, its place, and in words the jack and the rule at fault, each on a line.
#![tactic(auto)]

ghost use Rattle.std.specs.Prelude.{◌≡◌, [], ◌++◌, ◌+◌, ◌≤◌, length};
ghost use Rattle.text_numbers.specs.Decimal.{digits_of};
ghost use Rattle.words.specs.Meaning.{number_of};
ghost use Rattle.line_putting.specs.Putting.{Puts};
ghost use Rattle.line_refusal.specs.Words.{quoted};
ghost use Rattle.explaining.specs.Text.{said, jack_text, wrong_text, refused_text, most_explained};

use line_putting::{put_number, put_spelled, put_text};
use line_refusal::refusal_text;
use words::Reason;

// A number between two texts, put into a buffer from a place on; the place after it. So do the next ones.
fn put_said(front: &[u8], n: u64, rest: &[u8], from: usize, buf: &mut [u8]) -> usize
    requires { from + length (said front.now n rest.now) ≤ length buf.old }
    ensures { Puts from (said front.now n rest.now) buf.old result buf.new }
{
    let number = put_text(front, from, buf);
    let end = put_number(b"", n, number, buf);
    put_text(rest, end, buf)
}

// What is said at a jack, up to a number.
fn put_jack(j: u64, rest: &[u8], n: u64, from: usize, buf: &mut [u8]) -> usize
    requires { from + length (jack_text j rest.now n) ≤ length buf.old }
    ensures { Puts from (jack_text j rest.now n) buf.old result buf.new }
{
    let number = put_said(b"jack ", j, rest, from, buf);
    put_number(b"", n, number, buf)
}

// A port that two jacks have: the one at fault, and the earlier one.
fn put_repeated(j: u64, port: u64, earlier: u64, from: usize, buf: &mut [u8]) -> usize
    requires { from + length (jack_text j (quoted ": port ") port ++ (quoted " is already at jack " ++ digits_of earlier)) ≤ length buf.old }
    ensures { Puts from (jack_text j (quoted ": port ") port ++ (quoted " is already at jack " ++ digits_of earlier))
        buf.old result buf.new }
{
    let already = put_jack(j, b": port ", port, from, buf);
    let number = put_text(b" is already at jack ", already, buf);
    put_number(b"", earlier, number, buf)
}

// A port at the jack of its own number.
fn put_own(j: u64, from: usize, buf: &mut [u8]) -> usize
    requires { from + length (jack_text j (quoted ": port ") j ++ quoted " has the jack's own number") ≤ length buf.old }
    ensures { Puts from (jack_text j (quoted ": port ") j ++ quoted " has the jack's own number") buf.old result buf.new }
{
    let own = put_jack(j, b": port ", j, from, buf);
    put_text(b" has the jack's own number", own, buf)
}

// The jack and the rule at fault, in words.
fn put_wrong(reason: Reason, place: u64, earlier: u64, x: u64, from: usize, buf: &mut [u8]) -> usize
    requires { from + length (wrong_text (number_of reason) place earlier x) ≤ length buf.old }
    ensures { Puts from (wrong_text (number_of reason) place earlier x) buf.old result buf.new }
{
    match reason {
        Reason::Ended => put_text(b"the newline is missing or not last", from, buf),
        Reason::Number => put_said(
            b"jack ",
            x,
            b": not a plain decimal number of at most 64 bits",
            from,
            buf,
        ),
        Reason::Ports => put_text(b"a pattern has 2 to 20 entries", from, buf),
        Reason::Outside => put_jack(
            place,
            b": its entry is none of the ports 1 to ",
            x,
            from,
            buf,
        ),
        Reason::Repeated => put_repeated(place, x, earlier, from, buf),
        _ => put_own(place, from, buf),
    }
}

// A refusal at a place, with its words, at the front of a buffer; how many bytes that takes.
pub fn put_refused(reason: Reason, place: u8, earlier: u8, x: u64, buf: &mut [u8]) -> usize
    requires { most_explained ≤ length buf.old }
    ensures puts { Puts 0 (refused_text (number_of reason) place earlier x) buf.old result buf.new }
    ensures fits { result ≤ most_explained }
{
    let words = put_spelled(refusal_text(reason, place as u64), 0, buf);
    let end = put_wrong(reason, place as u64, earlier as u64, x, words, buf);
    put_text(b"\n", end, buf)
}
