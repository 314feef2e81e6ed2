//! The player: it moves a fabric along a plan, one change at a time, and never has a link come before the other has left.
#![tactic(auto)]

mod laying;
mod moves;
mod plan;
mod start;
mod states;

pub use laying::lay;
pub use plan::Plan;
pub use states::{Between, Kept, Steady};
