//! A network as a buyer lends it: nodes, the ends of links, their weights and states, and changes of them.
#![tactic(auto)]

mod ends;
mod standing;
mod types;

pub use ends::check_ends;
pub use types::{Change, EndFault, Ends, LinkState, Node};

/// The most nodes that a network may have.
pub const MAX_NODES: u32 = 4096;

/// The most links that a network may have.
pub const MAX_LINKS: usize = 16384;
