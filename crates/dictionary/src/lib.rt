// Dictionary numbers of patterns of 2 to 20 ports: the number of a pattern and back, the next in dictionary order, our rank of a number and back.
#![tactic(auto)]

pub mod numbering;
pub mod onward;
pub mod translation;
