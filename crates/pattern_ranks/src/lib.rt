// The rank of a pattern, level by level: each pattern comes from one shorter pattern, and so do its rank and its place read backward.
#![tactic(auto)]

pub mod ranking;
pub mod types;
