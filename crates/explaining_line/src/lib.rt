// A text explained: why the pattern that it is has its rank, or how it is refused and what is wrong, in words.
#![tactic(auto)]

ghost use Rattle.std.specs.Prelude.{◌≡◌, ◌≤◌, length};
ghost use Rattle.listing.specs.Pattern.{entry};
ghost use Rattle.listing.specs.Limits.{most_ports};
ghost use Rattle.words.specs.Told.{spot_number, earlier_number, then};
ghost use Rattle.words.specs.Meaning.{number_of, spot_of, refusal_of};
ghost use Rattle.text_entries.specs.Entries.{entries_of};
ghost use Rattle.pattern_check.specs.Calls.{check_of};
ghost use Rattle.explaining.specs.Text.{named_in, refused_text, pattern_text, line_text, explained, explain_of, most_explained};
ghost use Rattle.explaining_line.specs.Answers.{ExplainedIs};

use explaining_levels::put_why;
use explaining_words::put_refused;
use pattern_check::checking::check_inverse;
use text_entries::{Entries, bad_entry, entries_in, one_line};
use words::refusals::{earlier_number, nowhere, place_number};
use words::{Reason, Refusal};

// No text is longer.
pub const EXPLAINED_BYTES: usize = 1104;

// A text judged, and how many bytes of the buffer it takes to say so. No Result: a text is written where it is refused too.
#[derive(Clone, Copy)]
pub struct Explained {
    pub judged: Result<(), Refusal>,
    pub len: usize,
}

// A refusal, with the number that its words name.
fn refuse(f: Refusal, x: u64, buf: &mut [u8]) -> Explained
    requires { most_explained ≤ length buf.old }
    ensures { ExplainedIs (refusal_of f) (refused_text (number_of f.reason) (spot_number (spot_of f.place)) (earlier_number (spot_of f.place)) x)
        buf.old result buf.new }
{
    let Refusal { reason, place } = f;
    Explained {
        judged: Err(f),
        len: put_refused(reason, place_number(place), earlier_number(place), x, buf),
    }
}

// The port at a jack of a pattern; 0 where there is none.
fn port_at(p: &[u8], j: u8) -> u8
    ensures { result ≡ entry p.now j }
{
    if j == 0 {
        return 0;
    }
    let at = (j - 1) as usize;
    if at < p.len() {
        return p[at];
    }
    0
}

// The number that the words of a refusal of a pattern name: for 4 the port, else how many ports there are.
fn named_in(p: &[u8], reason: Reason, place: u8) -> u64
    ensures { result ≡ named_in p.now (number_of reason) place }
{
    match reason {
        Reason::Repeated => port_at(p, place) as u64,
        _ => p.len() as u64,
    }
}

// Entries as a pattern.
fn explain_pattern(p: &[u8], buf: &mut [u8]) -> Explained
    requires { most_explained ≤ length buf.old }
    ensures { ExplainedIs (check_of most_ports p.now) (pattern_text p.now) buf.old result buf.new }
{
    match check_inverse(p) {
        Err(f) => {
            let x = named_in(p, f.reason, place_number(f.place));
            refuse(f, x, buf)
        }
        Ok(mut taken) => Explained {
            judged: Ok(()),
            len: put_why(&mut taken, buf),
        },
    }
}

// A line of entries.
fn explain_line(t: &[u8], buf: &mut [u8]) -> Explained
    requires { most_explained ≤ length buf.old }
    ensures { ExplainedIs (then (entries_of t.now) (check_of most_ports)) (line_text t.now) buf.old result buf.new }
{
    match entries_in(t) {
        Err(f) => refuse(f, bad_entry(t), buf),
        Ok(entries) => {
            let Entries { len, bytes } = entries;
            explain_pattern(&bytes[..len], buf)
        }
    }
}

// What is printed of a text, at the front of a buffer.
pub fn explain(t: &[u8], buf: &mut [u8]) -> Explained
    requires { most_explained ≤ length buf.old }
    ensures { ExplainedIs (explain_of t.now) (explained t.now) buf.old result buf.new }
{
    match one_line(t) {
        None => refuse(nowhere(Reason::Ended), 0, buf),
        Some(k) => explain_line(&t[..k], buf),
    }
}
