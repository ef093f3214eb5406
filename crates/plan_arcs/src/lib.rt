// The ranks that a plan names and the gaps that it leaves, found from its legs alone: inner pieces of the call that tells planners so (request 1).
#![tactic(auto)]

pub mod circle;
pub mod finding;
pub mod gaps;
