// The walk through the jacks that finds the dictionary number of a pattern and the pattern of a number, without the list: at each jack the ports before the
// one that it gets, with what each of them passes over.
#![tactic(auto)]

pub mod ports;
pub mod rows;
pub mod walk;
