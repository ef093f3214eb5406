// The lines that are printed: each says what was compared, what was found, and where that is not what was expected, that it differs.
use words::Refusal;
use words::refusals::{place_number, reason_number};

pub fn text(rt: &impl Print, bytes: &[u8]) {
    let _ = rt.write_all(bytes);
}

pub fn number(rt: &impl Print, n: u64) {
    let _ = rt.print(n);
}

// The end of a line: nothing more where all is as expected. (Whether it is so is what was found.)
pub fn end(rt: &impl Print, good: bool) {
    if good {
        text(rt, b"\n");
    } else {
        text(rt, b" DIFFERS\n");
    }
}

fn port(rt: &impl Print, v: u8) {
    number(rt, v as u64);
}

// The ports of a pattern, one after the other.
pub fn pattern(rt: &impl Print, p: &[u8]) {
    for v in p {
        port(rt, *v);
    }
}

// What a call told, beside what was expected: 0 at 0 where it was accepted, else the number and the place of the refusal.
pub fn answered(
    rt: &impl Print,
    what: &[u8],
    found: Result<(), Refusal>,
    number_expected: u8,
    place_expected: u8,
) {
    text(rt, what);
    match found {
        Ok(()) => {
            text(rt, b": accepted");
            end(rt, number_expected == 0 && place_expected == 0);
        }
        Err(f) => {
            let reason = reason_number(f.reason);
            let place = place_number(f.place);
            text(rt, b": refused ");
            number(rt, reason as u64);
            text(rt, b" at ");
            number(rt, place as u64);
            end(rt, reason == number_expected && place == place_expected);
        }
    }
}

// A number found, beside the one expected.
pub fn counted(rt: &impl Print, what: &[u8], found: u64, expected: u64) {
    text(rt, what);
    text(rt, b": ");
    number(rt, found);
    end(rt, found == expected);
}
