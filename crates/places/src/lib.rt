//! The changes of a batch, judged and made, and the places of all standings that occur in it.
#![tactic(auto)]

mod changes;
mod places;
mod pool;

pub use changes::{change_links, link_of};
pub use pool::{Pool, place_pool, trace};
