//! The tables of a plant.
use network::{Change, Ends, LinkState};

/// A plant of n nodes, its links and the changes of them, with the line of each link and of each change. The book takes
/// ends, links and changes as slices of their own, so that their lines stand beside them. It holds no facts: a reader may
/// change what was read.
#[derive(Drop)]
pub struct Tables<W> {
    pub n: u32,
    pub ends: Vec<Ends>,
    pub links: Vec<LinkState<W>>,
    pub link_lines: Vec<u32>,
    pub changes: Vec<Change<W>>,
    pub change_lines: Vec<u32>,
}
