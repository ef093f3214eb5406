// The moves between the parts of the list: the tables by n and i, a move turned round, a move on the jacks of a longer pattern.
#![tactic(auto)]

pub mod changes;
pub mod tables;
