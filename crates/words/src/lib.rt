// The words of the bench as types. What each means, in numbers, stands in specs/.
#![tactic(auto)]

pub mod limits;
pub mod refusals;
pub mod shapes;
pub mod signs;

// A jack of the panel, counted from 1.
#[derive(Clone, Copy, PartialEq, Eq)]
pub struct Jack(pub u8);

// A port of the switch, counted from 1. A jack and a port of the same number are two things.
#[derive(Clone, Copy, PartialEq, Eq)]
pub struct Port(pub u8);

// A movement order of the robot: two jacks exchanged, or three turned (the first gets what the second held, the second what the third held,
// the third what the first held).
#[derive(Clone, Copy)]
pub enum Order {
    Swap(Jack, Jack),
    Turn(Jack, Jack, Jack),
}

// A move from a pattern to its neighbour: nothing, one order, or two swaps.
#[derive(Clone, Copy)]
pub enum Move {
    Nothing,
    One(Order),
    Two(Jack, Jack, Jack, Jack),
}

// A line of the campaign: a movement order, a seat, where the cord at a jack is seated anew and the panel stays, a mark with its number and rank, the end with
// the plan's marks.
#[derive(Clone, Copy)]
pub enum Line {
    Movement(Order),
    Seat(Jack),
    Mark(u64, u64),
    End(u64),
}

// Why a call was refused: the paper's refusals, in the order of their numbers.
#[derive(Clone, Copy)]
pub enum Reason {
    Ports,
    Room,
    Outside,
    Repeated,
    OwnJack,
    Rank,
    Key,
    Number,
    Legs,
    Run,
    Ended,
    NoMark,
    MarkStands,
    Kind,
    Unfit,
    Errors,
    Shape,
}

// Where the fault is: at a jack of a pattern or panel, at a jack whose port an earlier jack, the second one, holds too, at a line of a plan, or at no place that
// is said. (No Option of a place: each of the four has its numbers in one table.)
#[derive(Clone, Copy)]
pub enum Place {
    Nowhere,
    AtJack(Jack),
    AtJacks(Jack, Jack),
    AtLine(u8),
}

// A refusal: why, and where.
#[derive(Clone, Copy)]
pub struct Refusal {
    pub reason: Reason,
    pub place: Place,
}

// A number by its sign: so many ahead or, where it goes back, behind 0.
#[derive(Clone, Copy)]
pub struct Signed {
    pub back: bool,
    pub magnitude: u64,
}

// A leg of a plan: its first rank, whether it runs backward, and how many steps it has.
#[derive(Clone, Copy)]
pub struct Leg {
    pub start: u64,
    pub back: bool,
    pub run: u64,
}
