// The paper's example: its orders are printed, read back line by line and carried out on a panel; at each mark the panel has the pattern of the line's rank.
use crate::says;
use line_reader::order_lines::read_line;
use panel::lines::carry;
use patterns::ranking::rank;
use printing::{Filled, fill, rehearse};
use words::Line;

// A mark: the rank of what stands on the panel beside the line's.
fn met(rt: &impl Print, panel: &[u8], number: u64, wanted: u64) -> bool {
    says::text(rt, b"example: mark ");
    says::number(rt, number);
    says::text(rt, b" of rank ");
    says::number(rt, wanted);
    says::text(rt, b" meets rank ");
    match rank(panel) {
        Ok(k) => {
            says::number(rt, k);
            k == wanted
        }
        Err(_) => false,
    }
}

// A line obeyed.
fn obey(rt: &impl Print, panel: &mut [u8], line: Line) {
    let good = carry(panel, line).is_ok();
    match line {
        Line::Movement(_) => {
            says::text(rt, b"example: an order leaves ");
            says::pattern(rt, panel);
            says::end(rt, good);
        }
        Line::Seat(_) => {
            says::text(rt, b"example: a seat, with no error before it");
            says::end(rt, false);
        }
        Line::Mark(number, wanted) => {
            let meets = met(rt, panel, number, wanted);
            says::end(rt, good && meets);
        }
        Line::End(marks) => says::counted(rt, b"example: marks at the end", marks, MARKS),
    }
}

// The line at a place, and the place after it.
fn read_one(rt: &impl Print, text: &[u8], place: usize, panel: &mut [u8]) -> usize {
    match read_line(text, place) {
        Ok((line, after)) => {
            obey(rt, panel, line);
            after
        }
        Err(_) => {
            says::text(rt, b"example: no line");
            says::end(rt, false);
            place
        }
    }
}

// The lines of the example's output, its bytes, and its marks.
const LINES: u8 = 11;

const BYTES: u64 = 98;

const MARKS: u64 = 5;

// The bytes of the buffer that it is printed into.
const BUFFER: usize = 4096;

// All lines, on a panel.
fn read_all(rt: &impl Print, text: &[u8], panel: &mut [u8]) {
    let mut place: usize = 0;
    for _ in 0..LINES {
        place = read_one(rt, text, place, panel);
    }
    says::counted(rt, b"example: bytes read", place as u64, text.len() as u64);
}

pub fn printed_and_read(rt: &impl Print) {
    let rehearsed = rehearse(b"ports=4\nlegs=2\nstart=0\nrun=2\nstart=8\nrun=-1\n");
    let mut buf = [0u8; BUFFER];
    let printed = fill(rehearsed.rehearsal, &mut buf);
    match printed.filled {
        Filled::Ended(n) => {
            says::counted(rt, b"example: bytes printed", n as u64, BYTES);
            let mut panel = [2u8, 3, 4, 1];
            read_all(rt, &buf[..n], &mut panel);
        }
        Filled::Lines(_) => {
            says::text(rt, b"example: printed without its end");
            says::end(rt, false);
        }
        Filled::Refused(f) => says::answered(rt, b"example: printed", Err(f), 0, 0),
    }
}
