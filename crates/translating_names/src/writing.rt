// The names of a pattern written as one line.
ghost use Rattle.std.specs.Prelude.{◌≡◌, ◌+◌, ◌≤◌, length};
ghost use Rattle.line_format.specs.Calls.{over};
ghost use Rattle.text_entries.specs.Entries.{entries_text};
ghost use Rattle.line_putting.specs.Putting.{Puts};
ghost use Rattle.translating.specs.Names.{names_text};
ghost use Rattle.translating_names.specs.Pieces.{rest_text};

use line_putting::{put_number, put_text};

// The entries after the first, a comma before each, put into a buffer from a place on; the place after them.
fn put_rest(p: &[u8], from: usize, buf: &mut [u8]) -> usize
    requires { from + length (rest_text p.now 1) ≤ length buf.old }
    ensures { Puts from (rest_text p.now 1) buf.old result buf.new }
{
    let mut at = from;
    for k in 1..p.len() {
        at = put_number(b",", p[k] as u64, at, buf);
    }
    at
}

// Entries, with commas between them.
fn put_entries(p: &[u8], from: usize, buf: &mut [u8]) -> usize
    requires { (1 ≤ length p.now) × (from + length (entries_text p.now) ≤ length buf.old) }
    ensures { Puts from (entries_text p.now) buf.old result buf.new }
{
    let rest = put_number(b"", p[0] as u64, from, buf);
    put_rest(p, rest, buf)
}

// The line of a rank, a number and a pattern, at the front of a buffer; how many bytes it takes.
pub fn write_names(rank: u64, number: u64, p: &[u8], out: &mut [u8]) -> usize
    requires { (1 ≤ length p.now) × (length (names_text (record { rank = rank; number = number; pattern = p.now })) ≤ length out.old) }
    ensures answer { result ≡ length (names_text (record { rank = rank; number = number; pattern = p.now })) }
    ensures bytes { out.new ≡ over (names_text (record { rank = rank; number = number; pattern = p.now })) out.old }
{
    let second = put_number(b"rank=", rank, 0, out);
    let third = put_number(b" number=", number, second, out);
    let entries = put_text(b" pattern=", third, out);
    let end = put_entries(p, entries, out);
    put_text(b"\n", end, out)
}
