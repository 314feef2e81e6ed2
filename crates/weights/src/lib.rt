//! Weights of links: what a weight kind is, the two kinds, and how a link stands.
#![tactic(auto)]

mod class;
mod cost;
mod order;
mod standing;
mod weight;

pub use class::Class;
pub use cost::Cost;
pub use order::{Ordered, Side};
pub use standing::Standing;
pub use weight::Weight;
