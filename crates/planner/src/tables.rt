//! What a caller lends.
use network::{Ends, LinkState};
use weights::Weight;

// Ends and links are two tables: the ends are only read, and a port table is lent the same ones.
/// The tables of a network of n nodes: the ends of its links, their weights and states, and the tree table, which the
/// book keeps the least tree in. Tables may be longer than needed where the refusals allow it.
#[derive(Drop)]
pub struct Tables<'a, 'b, 'c, W: Weight> {
    pub n: u32,
    pub ends: &'a [Ends],
    pub links: &'b mut [LinkState<W>],
    pub tree: &'c mut [u32],
}
