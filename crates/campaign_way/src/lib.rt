// What is still to come before a mark: the rank that a leg names, and the next order on the way to its pattern. Inner pieces of the campaign.
#![tactic(auto)]

pub mod along;
pub mod coming;

use words::Order;

// What is to come before a mark: the panel may not stand there; nothing; or an order next. (Three ways, so no Option is
// plainer.)
#[derive(Clone, Copy)]
pub enum ToCome {
    Astray,
    Clear,
    Next(Order),
}
