// The shares of several benches, a bench's plan, or the sums of their counts: the first line of standard input says what is asked, with the ports, the benches and a
// bench; for the sums the counts come after it, of which the first 4,096 bytes are judged. For a refusal it prints its number and its place.
#![tactic(auto)]

ghost use Rattle.std.specs.Prelude.{◌≡◌, ◌≤◌, length};
ghost use Rattle.listing.specs.Limits.{most_ports};

use benches_calls::Fault;
use benches_calls::adding::sum;
use benches_calls::faults::{fault_number, fault_place};
use benches_calls::sharing::share;
use benches_reading::{Lines, PER_LINE, read_counts, three_in};
use benches_writing::{ANSWER_BYTES, put_no_plan, put_plan, put_refusal, put_shares, put_sums};
use console::{Streams, Unwritten, answer_input, printed, tell_number, written};
use pattern_steps::counts::count_of;
use text_keys::{find, has_key};
use words::Reason;
use words::refusals::reason_number;

// How many bytes are read: the line of the question, and the counts that are judged.
const READ: usize = 4164;

// The most lines of counts, and their numbers.
const MOST_LINES: usize = 64;

const MOST_NUMBERS: usize = 192;

// So many bytes at the front of a buffer.
fn print_front(streams: &mut Streams, buf: &[u8], n: usize) -> Result<(), Unwritten>
    requires { n ≤ length buf.now }
{
    written(streams, b"benches", &buf[..n])
}

// A refusal, by its number and its place. (Two kinds of refusal have numbers in one row: `words::Reason` and `benches_calls::Fault`.)
fn print_refusal(streams: &mut Streams, number: u8, place: u64) {
    let mut buf = [0u8; ANSWER_BYTES];
    let n = put_refusal(number, place, &mut buf);
    if print_front(streams, &buf, n).is_ok() {
        tell_number(streams, b"refused=", number as u64);
        tell_number(streams, b"at=", place);
    }
}

// The same for a reason of the paper's.
fn print_reason(streams: &mut Streams, reason: Reason, place: u64) {
    print_refusal(streams, reason_number(reason), place);
}

fn print_fault(streams: &mut Streams, f: Fault) {
    print_refusal(streams, fault_number(f), fault_place(f));
}

// An answer, which `put` puts at the front of a buffer, and the outcome that all is printed.
fn print_answer<F: FnOnce(&mut [u8]) -> usize>(streams: &mut Streams, put: F)
    requires callable { (b : _) → length b.now ≡ 5056 → F.pre put b }
    requires within { (b : _) (n : _) (after : _) → length b.now ≡ 5056 → F.post put b n after → n ≤ length after.now }
{
    let mut buf = [0u8; ANSWER_BYTES];
    let n = put(&mut buf);
    if print_front(streams, &buf, n).is_ok() {
        printed(streams);
    }
}

// The shares of all benches: bench 0 is refused where all are.
fn answer_shares(streams: &mut Streams, ports: u64, benches: u64) {
    match share(ports, benches, 0) {
        Err(f) => print_fault(streams, f),
        Ok(_) => print_answer(streams, |buf| put_shares(ports, benches, buf)),
    }
}

// The plan of a bench.
fn answer_plan(streams: &mut Streams, ports: u64, benches: u64, bench: u64) {
    match share(ports, benches, bench) {
        Err(f) => print_fault(streams, f),
        Ok(None) => print_answer(streams, |buf| put_no_plan(bench, buf)),
        Ok(Some(l)) => print_answer(streams, |buf| put_plan(ports, l, buf)),
    }
}

// The sums of counts.
fn answer_counts(streams: &mut Streams, ports: u64, benches: u64, counts: &[u64])
    requires { ports ≤ most_ports }
{
    match sum(ports, benches, counts) {
        Err(f) => print_fault(streams, f),
        Ok(c) => {
            let of = count_of(ports as u8);
            print_answer(streams, |buf| put_sums(c, of, buf));
        }
    }
}

// The counts that a text is, and then their sums. There are no more lines than benches, else they are not three numbers for each.
fn answer_text(streams: &mut Streams, ports: u64, benches: u64, t: &[u8])
    requires { ports ≤ most_ports }
{
    let mut counts = [0u64; MOST_NUMBERS];
    match read_counts(t, &mut counts) {
        Lines::Unended(line) => print_reason(streams, Reason::Ended, line as u64),
        Lines::Bad(line) => print_reason(streams, Reason::Number, line as u64),
        Lines::All(lines) => {
            if lines <= MOST_LINES {
                let n = PER_LINE * lines;
                answer_counts(streams, ports, benches, &counts[..n]);
            } else {
                print_fault(streams, Fault::Benches);
            }
        }
    }
}

// The sums of the counts that a text is; the ports and the benches are judged before it.
fn answer_sums(streams: &mut Streams, ports: u64, benches: u64, t: &[u8]) {
    match share(ports, benches, 0) {
        Err(f) => print_fault(streams, f),
        Ok(_) => answer_text(streams, ports, benches, t),
    }
}

// The lengths of the keys `shares=`, `plan=` and `add=`.
const SHARES_KEY: usize = 7;

const PLAN_KEY: usize = 5;

const ADD_KEY: usize = 4;

fn ask_shares(streams: &mut Streams, numbers: &[u8]) {
    match three_in(numbers) {
        None => print_reason(streams, Reason::Number, 0),
        Some((ports, benches, _)) => answer_shares(streams, ports, benches),
    }
}

fn ask_plan(streams: &mut Streams, numbers: &[u8]) {
    match three_in(numbers) {
        None => print_reason(streams, Reason::Number, 0),
        Some((ports, benches, bench)) => answer_plan(streams, ports, benches, bench),
    }
}

fn ask_add(streams: &mut Streams, numbers: &[u8], t: &[u8]) {
    match three_in(numbers) {
        None => print_reason(streams, Reason::Number, 0),
        Some((ports, benches, _)) => answer_sums(streams, ports, benches, t),
    }
}

// A question, by its key; the command asks no other.
fn ask(streams: &mut Streams, line: &[u8], t: &[u8]) {
    if has_key(line, b"shares=") {
        ask_shares(streams, &line[SHARES_KEY..]);
        return;
    }
    if has_key(line, b"plan=") {
        ask_plan(streams, &line[PLAN_KEY..]);
        return;
    }
    if has_key(line, b"add=") {
        ask_add(streams, &line[ADD_KEY..], t);
        return;
    }
    print_reason(streams, Reason::Key, 0);
}

fn ask_text(streams: &mut Streams, t: &[u8]) {
    match find(t, b'\n') {
        None => print_reason(streams, Reason::Ended, 0),
        Some(k) => ask(streams, &t[..k], &t[k + 1..]),
    }
}

// (Programs differ here in what they name: it is all that a main says.)
fn main(rt: HostRuntime) {
    answer_input(&rt, &mut [0u8; READ], b"benches", b"counts", ask_text);
}
