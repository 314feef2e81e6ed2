//! Fabrics: what one has to show, and its plainest make, the link map.
#![tactic(auto)]

mod fabric;
mod map;

pub use fabric::{Fabric, check_turn, place};
pub use map::LinkMap;
