// The check of a pattern, and of a panel: the first jack at fault decides.
#![tactic(auto)]

pub mod answers;
pub mod checking;
