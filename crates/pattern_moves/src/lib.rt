// The move beside a pattern, the next or the previous: the pattern is taken apart to its course once, and the move is read off the course. Inner pieces for the
// crates above.
#![tactic(auto)]

pub mod neighbours;
mod onward;
mod seeking;
mod types;
