//! The least tree of a network and the plan of a batch, worked out in lent memory.
#![tactic(auto)]

mod entries;
mod plan;
mod ranks;
mod sound;
mod tree;

pub use entries::copy_entries;
pub use sound::Network;
