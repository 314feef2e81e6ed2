//! A fabric of a buyer's own make, code that is generic over all makes, and examples of each make at work.
#![tactic(auto)]

mod bits;
mod generic;
mod lent;

pub use bits::BitMap;
pub use generic::toggle;
pub use lent::wipe;

#[cfg(test)]
mod tests;
