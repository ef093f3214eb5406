// The order printer: judges the first 1,024 bytes of standard input as a plan, takes every mark as run and prints every order; for a refusal only its number
// and its place. It tells the command how many marks are to come and, buffer by buffer, how many have gone by.
#![tactic(auto)]

ghost use Rattle.std.specs.Prelude.{◌<◌, ⊤, MatchOption};
ghost use Rattle.printing.specs.Rehearsals.{state_of};
ghost use Rattle.printing.specs.Progress.{to_go};
ghost use Rattle.printing.proofs.StandsFor.{Rehearsing};

use campaign::Campaign;
use campaign_onward::status;
use console::{Streams, Unwritten, answer_input, printed, refused, tell_number, written};
use printing::rehearsals::state_of;
use printing::{Filled, Printed, Rehearsal, Rehearsed, fill, rehearse};

// How many bytes of standard input are judged as a plan. The longest plan has fewer.
const JUDGED: usize = 1024;

// How many bytes of lines are written at a time.
const BUFFER: usize = 65536;

// Bytes written to standard output, under this program's name. (`show` says its own.)
fn put(streams: &mut Streams, bytes: &[u8]) -> Result<(), Unwritten> {
    written(streams, b"orders", bytes)
}

// The last of them, and with them all is printed.
fn put_last(streams: &mut Streams, bytes: &[u8]) {
    if put(streams, bytes).is_ok() {
        printed(streams);
    }
}

// How many marks are to come. A function for this number and the next would have to be given the field, and be no shorter.
fn tell_marks(streams: &mut Streams, r: Rehearsal) {
    if let Ok(w) = status(Campaign { state: state_of(r) }) {
        tell_number(streams, b"marks=", w.marks);
    }
}

// How many marks have gone by: the number of the next one.
fn tell_done(streams: &mut Streams, r: Rehearsal) {
    if let Ok(w) = status(Campaign { state: state_of(r) }) {
        tell_number(streams, b"done=", w.number);
    }
}

// One buffer of lines; the rehearsal after them, where more are to come.
fn print_some(streams: &mut Streams, r: Rehearsal) -> Option<Rehearsal>
    requires { Rehearsing (state_of r) }
    ensures { MatchOption result ⊤ (λ next. Rehearsing (state_of next) × (to_go (state_of next) < to_go (state_of r))) }
{
    let mut buf = [0u8; BUFFER];
    let Printed { rehearsal, filled } = fill(r, &mut buf);
    let mut more = None;
    match filled {
        Filled::Lines(n) => {
            if put(streams, &buf[..n]).is_ok() {
                more = Some(rehearsal);
            }
        }
        Filled::Ended(n) => put_last(streams, &buf[..n]),
        Filled::Refused(_) => (),
    }
    tell_done(streams, rehearsal);
    more
}

// Every order, buffer by buffer: each leaves less to go.
fn print_all(streams: &mut Streams, r: Rehearsal)
    requires { Rehearsing (state_of r) }
{
    let mut rehearsal = r;
    while let Some(next) = print_some(streams, rehearsal) {
        rehearsal = next;
    }
}

// A text judged, and its orders or its refusal printed.
fn print_plan(streams: &mut Streams, text: &[u8]) {
    let Rehearsed { judged, rehearsal } = rehearse(text);
    match judged {
        Ok(()) => {
            tell_marks(streams, rehearsal);
            print_all(streams, rehearsal);
        }
        Err(f) => refused(streams, b"orders", f),
    }
}

// (`benches` has such a main as well: programs differ here in what they name.)
fn main(rt: HostRuntime) {
    answer_input(&rt, &mut [0u8; JUDGED], b"orders", b"plan", print_plan);
}
