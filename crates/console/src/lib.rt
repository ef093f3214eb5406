// What every command's program shares: its input, its output, and how it ended. A program has no exit status of its own, so it tells its outcome on descriptor
// 3, in lines that the command's wrapper reads (commands/way.sh). Standard error gets one line, and only where something cannot be read or written.
#![tactic(auto)]

ghost use Rattle.std.specs.Prelude.{◌≡◌, ◌+◌, ◌≤◌, length, take, IfOk};

use line_refusal::refusal_text;
use std::fs::{File, OpenOptions};
use std::io::{ErrorKind, Read, Write};
use std::os::unix::fs::PermissionsExt;
use std::rt::{Stderr, Stdin, Stdout};
use std::{fs, io};
use words::refusals::{earlier_number, place_number, reason_number};
use words::{Place, Reason, Refusal};

// The descriptor on which a program tells its outcome, by its name among files.
const TOLD: &str = "/dev/fd/3";

// What a program reads and writes: the standard streams, and the descriptor on which it tells, where that is open.
#[derive(Drop)]
pub struct Streams {
    input: Stdin,
    output: Stdout,
    errors: Stderr,
    told: Option<File>,
}

// Something could not be written, and the command has been told.
#[derive(Clone, Copy)]
pub struct Unwritten;

// Whether the descriptor on which a program tells is open for writing: its link's mode says how it was opened.
fn is_told(rt: &HostRuntime) -> bool {
    fs::symlink_metadata(rt, TOLD).is_ok_and(|link| link.permissions().mode() & 0o200 != 0)
}

// That descriptor opened once more, under a number that no standard stream has, even one that is closed.
fn open_told(rt: &HostRuntime) -> Option<File> {
    if !is_told(rt) {
        return None;
    }
    let told = OpenOptions::new().append(true).open(rt, TOLD).ok()?;
    told.try_clone().ok()
}

// What the program of this runtime reads and writes.
pub fn open_streams(rt: &HostRuntime) -> Streams {
    Streams {
        input: rt.stdin(),
        output: rt.stdout(),
        errors: rt.stderr(),
        told: open_told(rt),
    }
}

// Standard input into a buffer, until either is at its end or reading fails. How many bytes it put at the front. (A turn goes
// on by as many bytes as were read.)
fn read_rest(streams: &mut Streams, text: &mut [u8]) -> usize
    ensures fits { result ≤ length text.new }
    ensures front { result ≡ length (take result text.new) }
{
    let mut done: usize = 0;
    while done < text.len() {
        match streams.input.read(&mut text[done..]) {
            Err(_) | Ok(0) => return done,
            Ok(n) => done += n,
        }
    }
    done
}

// Standard input into the front of a buffer, until either is at its end: how many bytes it put there.
pub fn read_input(streams: &mut Streams, text: &mut [u8]) -> io::Result<usize>
    ensures fits { IfOk result (λ len. len ≤ length text.new) }
    ensures front { IfOk result (λ len. len ≡ length (take len text.new)) }
{
    let first = streams.input.read(text)?;
    let rest = read_rest(streams, &mut text[first..]);
    Ok(first + rest)
}

// A program's input, read into a buffer and answered; where it cannot be read, that is the outcome.
pub fn answer_input<F: FnOnce(&mut Streams, &[u8])>(
    rt: &HostRuntime,
    text: &mut [u8],
    name: &[u8],
    what: &[u8],
    answer: F,
)
    requires { F.IsAlwaysCallable answer }
{
    let mut streams = open_streams(rt);
    match read_input(&mut streams, text) {
        Ok(n) => answer(&mut streams, &text[..n]),
        Err(_) => unreadable(&mut streams, name, what),
    }
}

// Standard input read once, into a buffer from a place on: how many bytes, none where it is at its end.
pub fn read_more(streams: &mut Streams, text: &mut [u8], from: usize) -> io::Result<usize>
    requires { from ≤ length text.old }
    ensures fits { IfOk result (λ len. from + len ≤ length text.old) }
    ensures keeps { take from text.new ≡ take from text.old }
{
    streams.input.read(&mut text[from..])
}

// Bytes told to the command. Where nobody listens they are lost, and nothing else changes.
pub fn tell(streams: &mut Streams, bytes: &[u8]) {
    if let Some(told) = &mut streams.told {
        let _ = told.write_all(bytes);
    }
}

// A key and a number told to the command, on a line of their own.
pub fn tell_number(streams: &mut Streams, key: &[u8], n: u64) {
    tell(streams, key);
    if let Some(told) = &mut streams.told {
        let _ = writeln!(told, "{n}");
    }
}

// Bytes written to standard error. Where they cannot be they are lost.
fn complain(streams: &mut Streams, bytes: &[u8]) {
    let _ = streams.errors.write_all(bytes);
}

// The outcome where the input could not be read: `name` is the command's, `what` is what it reads.
pub fn unreadable(streams: &mut Streams, name: &[u8], what: &[u8]) {
    tell(streams, b"unreadable\n");
    complain(streams, name);
    complain(streams, b": the ");
    complain(streams, what);
    complain(streams, b" could not be read\n");
}

// The outcome where the output could not be written. Where that is because the reader of a pipe went away, nobody is told in words, as other filters do.
fn unwritable(streams: &mut Streams, name: &[u8], why: ErrorKind) {
    tell(streams, b"unwritable\n");
    if why != ErrorKind::BrokenPipe {
        complain(streams, name);
        complain(streams, b": the output could not be written\n");
    }
}

// Bytes written to standard output; where they cannot be, that is the outcome.
pub fn written(streams: &mut Streams, name: &[u8], bytes: &[u8]) -> Result<(), Unwritten> {
    if let Err(why) = streams.output.write_all(bytes) {
        unwritable(streams, name, why.kind());
        return Err(Unwritten);
    }
    Ok(())
}

// The outcome where all was written.
pub fn printed(streams: &mut Streams) {
    tell(streams, b"printed\n");
}

// The second number of a refusal, told to the command.
pub fn tell_earlier(streams: &mut Streams, place: Place) {
    tell_number(streams, b"earlier=", earlier_number(place) as u64);
}

// A refusal told to the command: its number and its place.
fn tell_refused(streams: &mut Streams, reason: Reason, place: u64) {
    tell_number(streams, b"refused=", reason_number(reason) as u64);
    tell_number(streams, b"at=", place);
}

// The same at its own place, with its second number.
pub fn tell_refusal(streams: &mut Streams, f: Refusal) {
    let Refusal { reason, place } = f;
    tell_refused(streams, reason, place_number(place) as u64);
    tell_earlier(streams, place);
}

// A refusal's two lines, with its place, on standard output and as the outcome.
pub fn refused_at(
    streams: &mut Streams,
    name: &[u8],
    reason: Reason,
    place: u64,
) -> Result<(), Unwritten> {
    let text = refusal_text(reason, place);
    written(streams, name, &text.bytes[..text.len])?;
    tell_refused(streams, reason, place);
    Ok(())
}

// A refusal at its own place, with its second number.
pub fn refused(streams: &mut Streams, name: &[u8], f: Refusal) {
    let Refusal { reason, place } = f;
    if refused_at(streams, name, reason, place_number(place) as u64).is_ok() {
        tell_earlier(streams, place);
    }
}
