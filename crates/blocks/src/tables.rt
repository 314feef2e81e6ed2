//! What a block is given: its graph, and the tables that it works in.

/// A block's graph: how many nodes it has, and its links.
#[derive(Clone, Copy)]
pub struct Graph<'a> {
    pub nodes: u32,
    pub links: &'a [[u32; 3]],
}

// Their lengths stay in clauses: they depend on the nodes and links of each block. Moves, entries and work area are cut for each
// half, and so are no part of it.
/// Marks of the links that a block's changes name and of those that a reduction keeps, a word for each link number and one
/// more; and parents and new numbers of nodes, a word for each node and one more.
#[derive(Drop)]
pub(crate) struct Tables<'a> {
    pub(crate) marks: &'a mut [u32],
    pub(crate) chosen: &'a mut [u32],
    pub(crate) parent: &'a mut [u32],
    pub(crate) name: &'a mut [u32],
}
