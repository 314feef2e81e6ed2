//! The records of a network.

/// A node of the network, numbered from 1.
#[derive(Clone, Copy, PartialEq, Eq, Debug)]
pub struct Node(pub u32);

/// The two end nodes of a link. They never change.
#[derive(Clone, Copy, PartialEq, Eq, Debug)]
pub struct Ends {
    pub a: Node,
    pub b: Node,
}

/// A link's weight and state. An absent link keeps its weight, so that the two are no Option.
#[derive(Clone, Copy, PartialEq, Eq, Debug)]
pub struct LinkState<W> {
    pub weight: W,
    pub present: bool,
}

/// A change of one link, named by its number: set gives it a weight and makes it present, remove makes it absent, flip
/// changes its state and keeps its weight.
#[derive(Clone, Copy, PartialEq, Eq, Debug)]
pub enum Change<W> {
    Set(u32, W),
    Remove(u32),
    Flip(u32),
}

/// What is wrong with the ends of a link.
#[derive(Clone, Copy, PartialEq, Eq, Debug)]
pub enum EndFault {
    /// An end of this link is no node.
    Outside(u32),
    /// Both ends of this link are one node.
    Same(u32),
}
