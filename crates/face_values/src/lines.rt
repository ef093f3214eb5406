// Lines and moves in words.
ghost use Rattle.std.specs.Prelude.{◌≡◌, [], ◌∷◌, ◌++◌};
ghost use Rattle.words.specs.Meaning.{order_of, move_of};
ghost use Rattle.face_values.specs.Answers.{five};
ghost use Rattle.face_values.specs.Lines.{jack_in, line_in, order_words, line_words, move_words};

use crate::answers::{ANSWER_WORDS, give};
use words::{Jack, Line, Move, Order};

// JIDROFEX_LINE_WORDS
pub const LINE_WORDS: usize = 4;

// The kinds of lines and moves: JIDROFEX_NOTHING, JIDROFEX_SWAP, JIDROFEX_TURN, JIDROFEX_MARK, JIDROFEX_END, JIDROFEX_TWO_SWAPS, and of
// request 4 JIDROFEX_SEAT.
const NOTHING: u64 = 0;

const SWAP: u64 = 1;

const TURN: u64 = 2;

const MARK: u64 = 3;

const END: u64 = 4;

const TWO_SWAPS: u64 = 5;

const SEAT: u64 = 6;

// The largest number of 8 bits, which a jack is held in.
pub const LARGEST8: u64 = 255;

// The jack of a word: jack 0 for a number that no jack holds.
fn jack_in(w: u64) -> Jack
    ensures { result ≡ jack_in w }
{
    Jack(u8::try_from(w).unwrap_or(0))
}

// The line that words mean.
pub fn line_in(words: &[u64; LINE_WORDS]) -> Line
    ensures { result ≡ line_in words.now }
{
    match words[0] {
        SWAP => Line::Movement(Order::Swap(jack_in(words[1]), jack_in(words[2]))),
        TURN => Line::Movement(Order::Turn(
            jack_in(words[1]),
            jack_in(words[2]),
            jack_in(words[3]),
        )),
        MARK => Line::Mark(words[1], words[2]),
        END => Line::End(words[1]),
        SEAT => Line::Seat(jack_in(words[1])),
        _ => Line::Movement(Order::Swap(Jack(0), Jack(0))),
    }
}

// A movement's words and one word after them.
fn give_movement(o: Order, last: u64, answer: &mut [u64; ANSWER_WORDS]) -> u8
    ensures number { result ≡ 0 }
    ensures words { answer.new ≡ five (order_words (order_of o) ++ (last ∷ [])) }
{
    match o {
        Order::Swap(a, b) => give(answer, SWAP, a.0 as u64, b.0 as u64, 0, last),
        Order::Turn(a, b, c) => give(answer, TURN, a.0 as u64, b.0 as u64, c.0 as u64, last),
    }
}

// A line's words and one word after them.
pub fn give_line(line: Line, last: u64, answer: &mut [u64; ANSWER_WORDS]) -> u8
    ensures number { result ≡ 0 }
    ensures words { answer.new ≡ five (line_words line ++ (last ∷ [])) }
{
    match line {
        Line::Movement(o) => give_movement(o, last, answer),
        Line::Seat(jack) => give(answer, SEAT, jack.0 as u64, 0, 0, last),
        Line::Mark(number, rank) => give(answer, MARK, number, rank, 0, last),
        Line::End(marks) => give(answer, END, marks, 0, 0, last),
    }
}

// A move's words.
pub fn give_move(m: Move, answer: &mut [u64; ANSWER_WORDS]) -> u8
    ensures number { result ≡ 0 }
    ensures words { answer.new ≡ five (move_words (move_of m)) }
{
    match m {
        Move::Nothing => give(answer, NOTHING, 0, 0, 0, 0),
        Move::One(o) => give_movement(o, 0, answer),
        Move::Two(a, b, c, d) => {
            give(
                answer, TWO_SWAPS, a.0 as u64, b.0 as u64, c.0 as u64, d.0 as u64,
            )
        }
    }
}
