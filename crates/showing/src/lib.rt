// What is shown of a plan: where one of its marks stands.
#![tactic(auto)]

pub mod marks;
