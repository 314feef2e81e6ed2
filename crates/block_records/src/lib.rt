//! The records of a block's tables, and the words that they are packed in: links in three words each, moves in two.
#![tactic(auto)]

mod packed;

/// A node of a block's graph, numbered from 1. A count of its own: a network's node has another type, and the
/// renaming table alone leads from one to the other.
#[derive(Clone, Copy, PartialEq, Eq, Debug)]
pub struct BlockNode(pub u32);

/// A link of a block's graph: its number in the network and its two end nodes.
#[derive(Clone, Copy, PartialEq, Eq, Debug)]
pub struct Link {
    pub number: u32,
    pub a: BlockNode,
    pub b: BlockNode,
}

/// A move gives a link a new standing or place.
#[derive(Clone, Copy, PartialEq, Eq, Debug)]
pub struct Move<V> {
    pub link: u32,
    pub to: V,
}
