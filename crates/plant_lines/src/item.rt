//! What one line tells.
use network::{Change, Ends};

/// The kind of a plant's weights.
#[derive(Clone, Copy)]
pub enum Kind {
    Cost,
    Class,
}

/// What one line tells.
#[derive(Drop)]
pub enum Item<W> {
    /// The kind of the weights, and how many nodes there are.
    Head(Kind, u32),
    Link(Ends, W),
    Change(Change<W>),
}
