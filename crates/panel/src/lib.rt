// The panel of 2 to 20 jacks: any permutation of its ports. Look-ups from jack to port and back, and the lines carried out on it.
#![tactic(auto)]

pub mod lines;
pub mod lookups;
