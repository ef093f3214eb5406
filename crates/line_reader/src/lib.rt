// Order lines read from a place of a text, in the format of `line_format`.
#![tactic(auto)]

pub mod order_lines;
