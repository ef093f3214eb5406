// Order lines written at the front of a lent buffer, in the format of `line_format`.
#![tactic(auto)]

pub mod answers;
pub mod order_lines;
