//! The block of one change, and the tally of work and tears.
#![tactic(auto)]

mod single;
mod tally;

pub use single::Thinned;
pub use tally::Tally;
