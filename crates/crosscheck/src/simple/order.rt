//! How links are ordered.
use crate::simple::records::{Link, Weight};

/// A link of a graph: its number, and its ends in that graph. The smaller number is first.
#[derive(Clone, Copy, PartialEq, Eq, PartialOrd, Ord)]
pub struct Edge {
    pub number: u32,
    pub a: u32,
    pub b: u32,
}

impl Edge {
    /// The link of this number in its network.
    pub fn of(number: u32, link: &Link) -> Edge {
        Edge {
            number,
            a: link.a,
            b: link.b,
        }
    }
}

/// What orders a link before its number: named links are first, where these come first, then present ones by weight,
/// then absent ones.
#[derive(Clone, Copy, PartialEq, Eq, PartialOrd, Ord)]
pub enum Rank {
    Named,
    Present(Weight),
    Absent,
}

impl From<Link> for Rank {
    fn from(link: Link) -> Rank {
        if link.present {
            Rank::Present(link.weight)
        } else {
            Rank::Absent
        }
    }
}

/// A link in an order: by its rank, then by its number.
#[derive(Clone, Copy, PartialEq, Eq, PartialOrd, Ord)]
pub struct Ranked {
    pub rank: Rank,
    pub edge: Edge,
}
