//! The text of a plant: bytes to tables, or the refusal.
#![tactic(auto)]

mod plant;
mod reader;

pub use plant::Plant;
pub use plant_tables::{Room, Tables};
pub use reader::read_plant;
