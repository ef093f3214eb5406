// What one level of a pattern tells: the step that it came by, and the shorter pattern, which is left in place with its inverse.
#![tactic(auto)]

pub mod peeling;
pub mod telling;
pub mod types;
