// How values cross to C: answers and lines in 64-bit words. What each word means stands in specs/ and in include/jidrofex.h.
#![tactic(auto)]

pub mod answers;
pub mod lines;
