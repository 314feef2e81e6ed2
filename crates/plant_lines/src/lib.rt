//! One line of a plant's text: bytes to what the line tells, or the refusal.
#![tactic(auto)]

mod item;
mod line;

pub use item::{Item, Kind};
pub use line::read_line;
