//! The tables that the lines of a plant's text fill, and the memory for them.
#![tactic(auto)]

mod plant;
mod room;
mod tables;

pub use plant::Tables;
pub use room::{MAX_BYTES, Room};
