// Ranks, dictionary numbers and patterns said in one another: reads lines from standard input, buffer by buffer, and prints the names of each pattern that they ask
// for. The first line that is refused ends it: its refusal is printed with the line's number, and the command is told the line as well.
#![tactic(auto)]

ghost use Rattle.std.specs.Prelude.{◌+◌, ◌≤◌, ◌<◌, ◌≡◌, length, take};
ghost use Rattle.listing.specs.Limits.{largest64};
ghost use Rattle.translating.specs.Lines.{most_line, SoFar};
ghost use Rattle.translate.specs.Turns.{HoldsIs, TurnIs};

use console::{
    Streams, open_streams, printed, read_more, refused_at, tell, tell_earlier, tell_number,
    unreadable, written,
};
use text_keys::find;
use translating_line::LINE_BYTES;
use translating_stream::{Stop, translate_held};
use words::refusals::{nowhere, place_number};
use words::{Reason, Refusal};

// A proved loop has to end, and nothing says that the input does. So each loop has as many turns as no run uses up: the lines of so many buffers of 4,096 bytes still
// have numbers of 64 bits.
const TURNS: u64 = 4503599627370494;

// How many bytes of the input are held at most, and how many are written at a time.
const HELD_BYTES: usize = 4096;

const PUT_BYTES: usize = 65536;

// What goes on from turn to turn beside the bytes that are held at the front of the buffer: how many they are, whether whole lines are still among them, the ports so
// far, 0 for none, and the number of the next line. (A flag: what is held goes on either way.)
#[derive(Clone, Copy)]
struct Held {
    len: usize,
    full: bool,
    ports: u8,
    line: u64,
}

// How a line that is too long ends.
#[derive(Clone, Copy)]
enum Rest {
    Newline,
    Ended,
    Failed,
    Endless,
}

// ---- a refusal

// How many bytes are told of the line that a text begins with: none after its newline, and no more than a good line has.
fn shown(left: &[u8]) -> usize
    ensures fits { result ≤ length left.now }
    ensures front { result ≡ length (take result left.now) }
    ensures shown { result ≤ most_line }
{
    find(left, b'\n').unwrap_or(left.len()).min(LINE_BYTES)
}

// A refused line, with which the text that is left begins: its refusal printed, and all that is known of it told to the command.
fn refuse(streams: &mut Streams, f: Refusal, ports: u8, line: u64, left: &[u8]) {
    let Refusal { reason, place } = f;
    if refused_at(streams, b"translate", reason, line).is_ok() {
        tell_number(streams, b"jack=", place_number(place) as u64);
        tell_earlier(streams, place);
        tell_number(streams, b"ports=", ports as u64);
        let n = shown(left);
        tell(streams, b"line=");
        tell(streams, &left[..n]);
        tell(streams, b"\n");
    }
}

// One reading of a line that is too long, into the buffer after the bytes that are told of it.
fn read_on(streams: &mut Streams, text: &mut [u8]) -> Rest
    requires { most_line < length text.old }
{
    match read_more(streams, text, LINE_BYTES) {
        Err(_) => Rest::Failed,
        Ok(0) => Rest::Ended,
        Ok(n) => match find(&text[LINE_BYTES..LINE_BYTES + n], b'\n') {
            Some(_) => Rest::Newline,
            None => Rest::Endless,
        },
    }
}

// The rest of such a line, until its newline or the end.
fn rest_of_line(streams: &mut Streams, text: &mut [u8]) -> Rest
    requires { most_line < length text.old }
{
    for _ in 0..TURNS {
        match read_on(streams, text) {
            Rest::Endless => (),
            rest => return rest,
        }
    }
    Rest::Endless
}

// The input could not be read.
fn failed(streams: &mut Streams) {
    unreadable(streams, b"translate", b"numbers");
}

// A line that is too long: it is read on, since its refusal is another where no newline comes.
fn refuse_long(streams: &mut Streams, text: &mut [u8], ports: u8, line: u64)
    requires { most_line < length text.old }
{
    match rest_of_line(streams, text) {
        Rest::Newline => refuse(
            streams,
            nowhere(Reason::Number),
            ports,
            line,
            &text[..LINE_BYTES],
        ),
        Rest::Ended => refuse(
            streams,
            nowhere(Reason::Ended),
            ports,
            line,
            &text[..LINE_BYTES],
        ),
        Rest::Failed => failed(streams),
        Rest::Endless => (),
    }
}

// The input is at its end: all is printed, unless bytes without a newline are left.
fn finish(streams: &mut Streams, left: &[u8], ports: u8, line: u64) {
    if left.is_empty() {
        printed(streams);
    } else {
        refuse(streams, nowhere(Reason::Ended), ports, line, left);
    }
}

// ---- turn by turn

// How it goes on after a part, with what is left of it at the front of the buffer.
fn go_on(
    streams: &mut Streams,
    text: &mut [u8],
    left: usize,
    ports: u8,
    line: u64,
    stop: Stop,
) -> Option<Held>
    requires { left ≤ length text.old }
    ensures { HoldsIs left ports line result }
{
    match stop {
        Stop::Refused(f) => {
            refuse(streams, f, ports, line, &text[..left]);
            None
        }
        Stop::Full => Some(Held {
            len: left,
            full: true,
            ports,
            line,
        }),
        Stop::More => {
            if LINE_BYTES < left {
                refuse_long(streams, text, ports, line);
                return None;
            }
            Some(Held {
                len: left,
                full: false,
                ports,
                line,
            })
        }
    }
}

// The whole lines among the first n bytes of the buffer, translated and written.
fn translate_more(
    streams: &mut Streams,
    text: &mut [u8],
    n: usize,
    ports: u8,
    line: u64,
) -> Option<Held>
    requires { SoFar ports × (n ≤ length text.old) × (line + length text.old ≤ largest64) }
    ensures { TurnIs (length text.old) line result }
{
    let mut out = [0u8; PUT_BYTES];
    let part = translate_held(text, n, ports, line, &mut out);
    written(streams, b"translate", &out[..part.len]).ok()?;
    go_on(
        streams,
        text,
        n - part.used,
        part.ports,
        part.line,
        part.stop,
    )
}

// One turn: more bytes are read, unless whole lines are still held, and translated. What goes on, or nothing where it is over.
fn take_turn(streams: &mut Streams, text: &mut [u8], held: Held) -> Option<Held>
    requires { SoFar held.ports × (held.len ≤ length text.old) × (held.line + length text.old ≤ largest64) }
    ensures { TurnIs (length text.old) held.line result }
{
    let Held {
        len,
        full,
        ports,
        line,
    } = held;
    if full {
        return translate_more(streams, text, len, ports, line);
    }
    match read_more(streams, text, len) {
        Err(_) => {
            failed(streams);
            None
        }
        Ok(0) => {
            finish(streams, &text[..len], ports, line);
            None
        }
        Ok(n) => translate_more(streams, text, len + n, ports, line),
    }
}

fn main(rt: HostRuntime) {
    let mut streams = open_streams(&rt);
    let mut text = [0u8; HELD_BYTES];
    let mut held = Held {
        len: 0,
        full: false,
        ports: 0,
        line: 1,
    };
    for turn in 0..TURNS {
        match take_turn(&mut streams, &mut text, held) {
            Some(next) => held = next,
            None => return,
        }
    }
}
