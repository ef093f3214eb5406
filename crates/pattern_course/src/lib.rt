// The pattern of a rank: its course, down the levels, and the pattern of a course, from the empty pattern up, in one lent buffer.
#![tactic(auto)]

pub mod types;
pub mod unranking;
