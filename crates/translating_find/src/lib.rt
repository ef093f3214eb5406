// The pattern that a line names: by its rank, by its dictionary number, or by its entries. It is put into a slice with as many bytes as there are ports.
#![tactic(auto)]

ghost use Rattle.std.specs.Prelude.{◌≡◌, ◌≤◌, length};
ghost use Rattle.listing.specs.Listing.{at};
ghost use Rattle.listing.specs.Limits.{most_ports};
ghost use Rattle.listing_dictionary.specs.Dictionary.{in_dictionary};
ghost use Rattle.words.specs.Meaning.{outcome_told};
ghost use Rattle.translating_find.specs.Pieces.{in_order, in_entries, pattern_of, found_told, found_bytes};

use dictionary::numbering::numbered;
use line_putting::put_text;
use patterns::ranking::unrank;
use text_entries::{Entries, entries_in};
use text_keys::has_key;
use text_numbers::reading::read_number;
use words::refusals::nowhere;
use words::{Reason, Refusal};

// The lengths of the keys `rank=`, `number=` and `pattern=`.
const RANK_KEY: usize = 5;

const NUMBER_KEY: usize = 7;

const PATTERN_KEY: usize = 8;

// By its rank. Only the order differs from that of dictionary numbers: a function over both would have the order in its contract, and be longer than either.
fn by_rank(t: &[u8], p: &mut [u8]) -> Result<(), Refusal>
    requires { (2 ≤ length p.old) × (length p.old ≤ most_ports) }
    ensures told { outcome_told result ≡ found_told (in_order (at (length p.old)) (length p.old) t.now) }
    ensures bytes { p.new ≡ found_bytes (in_order (at (length p.old)) (length p.old) t.now) p.old }
{
    let r = read_number(t).ok_or(nowhere(Reason::Number))?;
    unrank(r, p)
}

// By its dictionary number.
fn by_number(t: &[u8], p: &mut [u8]) -> Result<(), Refusal>
    requires { (2 ≤ length p.old) × (length p.old ≤ most_ports) }
    ensures told { outcome_told result ≡ found_told (in_order (in_dictionary (length p.old)) (length p.old) t.now) }
    ensures bytes { p.new ≡ found_bytes (in_order (in_dictionary (length p.old)) (length p.old) t.now) p.old }
{
    let k = read_number(t).ok_or(nowhere(Reason::Number))?;
    numbered(k, p)
}

// By its entries: any others than so many numbers are refused alike.
fn by_entries(t: &[u8], p: &mut [u8]) -> Result<(), Refusal>
    requires { length p.old ≤ most_ports }
    ensures told { outcome_told result ≡ found_told (in_entries (length p.old) t.now) }
    ensures bytes { p.new ≡ found_bytes (in_entries (length p.old) t.now) p.old }
{
    match entries_in(t) {
        Err(_) => Err(nowhere(Reason::Number)),
        Ok(entries) => {
            let Entries { len, bytes } = entries;
            if len == p.len() {
                put_text(&bytes[..len], 0, p);
                return Ok(());
            }
            Err(nowhere(Reason::Number))
        }
    }
}

// The pattern that a line names: its key says by what.
pub fn find_pattern(t: &[u8], p: &mut [u8]) -> Result<(), Refusal>
    requires { (2 ≤ length p.old) × (length p.old ≤ most_ports) }
    ensures told { outcome_told result ≡ found_told (pattern_of (length p.old) t.now) }
    ensures bytes { p.new ≡ found_bytes (pattern_of (length p.old) t.now) p.old }
{
    if has_key(t, b"rank=") {
        return by_rank(&t[RANK_KEY..], p);
    }
    if has_key(t, b"number=") {
        return by_number(&t[NUMBER_KEY..], p);
    }
    if has_key(t, b"pattern=") {
        return by_entries(&t[PATTERN_KEY..], p);
    }
    Err(nowhere(Reason::Key))
}
