// Counts read from text: a line of three numbers for each bench.
#![tactic(auto)]

ghost use Rattle.std.specs.Prelude.{◌≡◌, List, [], ◌∷◌, ◌++◌, ℕ, ◌+◌, ◌*◌, ◌≤◌, length, take, drop};
ghost use Rattle.words.specs.Told.{accepted, then};
ghost use Rattle.benches_laws.specs.Calls.{per_bench};
ghost use Rattle.benches_text.specs.Reading.{three_after, three_in, counts_in};
ghost use Rattle.benches_reading.specs.Answers.{triple_is, lines_told};

use text_entries::{Entry, entry_at};
use text_keys::find;

// The numbers of a line.
pub const PER_LINE: usize = 3;

// How many lines a text has, each of three numbers; or the first line, counted from 1, that has no newline or is not three numbers.
// (Three ways, so no Result is plainer.)
#[derive(Clone, Copy)]
pub enum Lines {
    All(usize),
    Unended(usize),
    Bad(usize),
}

// Two numbers, and the third (no `?`: an entry is one of three), which begins at a place and is the last.
fn third(t: &[u8], a: u64, b: u64, at: usize) -> Option<(u64, u64, u64)>
    requires { at ≤ length t.now }
    ensures { triple_is result ≡ three_after (a ∷ b ∷ []) (drop at t.now) }
{
    match entry_at(t, at) {
        Entry::Bad => None,
        Entry::Last(c) => Some((a, b, c)),
        Entry::More(_, _) => None,
    }
}

// A number, and the second, which begins at a place and is not the last.
fn second(t: &[u8], a: u64, at: usize) -> Option<(u64, u64, u64)>
    requires { at ≤ length t.now }
    ensures { triple_is result ≡ three_after (a ∷ []) (drop at t.now) }
{
    match entry_at(t, at) {
        Entry::Bad => None,
        Entry::Last(_) => None,
        Entry::More(b, next) => third(t, a, b, next),
    }
}

// The three numbers that a line is.
pub fn three_in(t: &[u8]) -> Option<(u64, u64, u64)>
    ensures { triple_is result ≡ three_in t.now }
{
    match entry_at(t, 0) {
        Entry::Bad => None,
        Entry::Last(_) => None,
        Entry::More(a, next) => second(t, a, next),
    }
}

// The three numbers of a line, put into a slice after those of so many lines before it, where it has room for them.
fn put_three(a: u64, b: u64, c: u64, lines: usize, counts: &mut [u64])
    ensures long { length counts.new ≡ length counts.old }
    ensures front { per_bench * lines + 3 ≤ length counts.old
        → take (per_bench * lines + 3) counts.new ≡ take (per_bench * lines) counts.old ++ (a ∷ b ∷ c ∷ []) }
{
    if lines < counts.len() / PER_LINE {
        let at = PER_LINE * lines;
        counts[at] = a;
        counts[at + 1] = b;
        counts[at + 2] = c;
    }
}

// The counts that a text is, at the front of a slice as far as it has room for them; how many lines they are, or the first line that is bad.
pub fn read_counts(t: &[u8], counts: &mut [u64]) -> Lines
    ensures told { lines_told result ≡ then (counts_in t.now) (λ ns. accepted (length ns)) }
    ensures long { length counts.new ≡ length counts.old }
    ensures front { (ns : List ℕ) → counts_in t.now ≡ accepted ns → length ns ≤ length counts.old
        → take (length ns) counts.new ≡ ns }
{
    let n = t.len();
    let mut lines: usize = 0;
    let mut at: usize = 0;
    // No `for`: a turn goes on by a line.
    while at < n {
        match find(&t[at..], b'\n') {
            None => {
                return Lines::Unended(lines + 1);
            }
            Some(k) => {
                let to = at + k;
                match three_in(&t[at..to]) {
                    None => {
                        return Lines::Bad(lines + 1);
                    }
                    Some((a, b, c)) => {
                        put_three(a, b, c, lines, counts);
                        lines += 1;
                        at = to + 1;
                    }
                }
            }
        }
    }
    Lines::All(lines)
}
