// A pattern read from one text: its entries in order, with commas between them. Every entry is judged, however many there are. Also the line that a text is,
// and which entry is the first that is no number.
#![tactic(auto)]

ghost use Rattle.std.specs.Prelude.{◌≡◌, List, [], ◌∷◌, ◌++◌, ℕ, ◌≤◌, length};
ghost use Rattle.listing.specs.Limits.{largest64};
ghost use Rattle.text_entries.specs.Entries.{one_line, entry_byte, few_entries, entries_of, bad_entry};
ghost use Rattle.text_entries.specs.Pieces.{line_is, LineWithin, EntryOf, last_of, more_of, HeldIs, EntriesIs};

use text_keys::find;
use text_numbers::reading::read_number;
use words::limits::LONGEST;
use words::refusals::nowhere;
use words::{Reason, Refusal};

// The entries that a text is, as bytes: the first len, and 0 beyond them. (Fixed memory: no Vec.)
#[derive(Clone, Copy)]
pub struct Entries {
    pub len: usize,
    pub bytes: [u8; LONGEST],
}

// The entries read so far: the first len bytes, as many as there are places for, and whether there were more. (Fixed memory: no Vec. The rest of the text is
// judged where there are more, so that is a flag and no refusal yet.)
#[derive(Clone, Copy)]
pub struct Held {
    pub bytes: [u8; LONGEST],
    pub len: usize,
    pub over: bool,
}

// The entry that begins at a place: the last one, one with others after its comma, from a place on, or none that is a number. (Three ways, so neither Option nor Result is plainer.)
#[derive(Clone, Copy)]
pub enum Entry {
    Last(u64),
    More(u64, usize),
    Bad,
}

// The line that a text is, where it is one and nothing more: At(k) for its first k bytes, with the newline after them as the last byte.
pub fn one_line(t: &[u8]) -> Option<usize>
    ensures line { line_is t.now result ≡ one_line t.now }
    ensures within { LineWithin t.now result }
{
    let k = find(t, b'\n')?;
    if k + 1 < t.len() {
        return None;
    }
    Some(k)
}

// An entry with none after it.
fn last(found: Option<u64>) -> Entry
    ensures { result ≡ last_of found }
{
    match found {
        Some(n) => Entry::Last(n),
        None => Entry::Bad,
    }
}

// An entry with others from a place on.
fn more(found: Option<u64>, next: usize) -> Entry
    ensures { result ≡ more_of next found }
{
    match found {
        Some(n) => Entry::More(n, next),
        None => Entry::Bad,
    }
}

// The entry that begins at a place of a text.
pub fn entry_at(t: &[u8], at: usize) -> Entry
    requires { at ≤ length t.now }
    ensures { EntryOf largest64 t.now at result }
{
    let rest = &t[at..];
    match find(rest, b',') {
        Some(k) => more(read_number(&rest[..k]), at + k + 1),
        None => last(read_number(rest)),
    }
}

// An entry as a byte: one above 255 is no port, and is held as 0, which is none either.
fn entry_byte(n: u64) -> u8
    ensures { result ≡ entry_byte n }
{
    u8::try_from(n).unwrap_or(0)
}

// One entry more, where there is a place for it.
fn and_entry(mut held: Held, n: u64) -> Held
    ensures { (ns : List ℕ) → HeldIs ns held → HeldIs (ns ++ (n ∷ [])) result }
{
    if held.len < LONGEST {
        held.bytes[held.len] = entry_byte(n);
        held.len += 1;
    } else {
        held.over = true;
    }
    held
}

// All entries read: more than there are ports for are refused.
fn counted(held: Held) -> Result<Entries, Refusal>
    ensures { (ns : List ℕ) → HeldIs ns held → EntriesIs (few_entries ns) result }
{
    if held.over {
        return Err(nowhere(Reason::Ports));
    }
    let Held { bytes, len, .. } = held;
    Ok(Entries { len, bytes })
}

// The entries that a text is. Where the next one begins is read from the text.
pub fn entries_in(t: &[u8]) -> Result<Entries, Refusal>
    ensures { EntriesIs (entries_of t.now) result }
{
    let mut held = Held {
        bytes: [0u8; LONGEST],
        len: 0,
        over: false,
    };
    let mut at: usize = 0;
    loop {
        match entry_at(t, at) {
            Entry::Bad => return Err(nowhere(Reason::Number)),
            Entry::Last(n) => return counted(and_entry(held, n)),
            Entry::More(n, next) => {
                held = and_entry(held, n);
                at = next;
            }
        }
    }
}

// Which entry of a text is the first that is no number, counted from 1; 0 where each is one.
// Here too the text has where the next one begins.
pub fn bad_entry(t: &[u8]) -> u64
    ensures { result ≡ bad_entry largest64 t.now }
{
    let mut passed: u64 = 0;
    let mut at: usize = 0;
    loop {
        match entry_at(t, at) {
            Entry::Bad => return passed + 1,
            Entry::Last(_) => return 0,
            Entry::More(_, next) => {
                passed += 1;
                at = next;
            }
        }
    }
}
