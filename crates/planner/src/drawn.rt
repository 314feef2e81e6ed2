//! What a granted draw answers.

/// The counts of a plan, n nodes, m links and k changes, and its work count: the links received, summed over all blocks.
#[derive(Clone, Copy, PartialEq, Eq, Debug)]
pub struct Drawn {
    pub n: u32,
    pub m: u32,
    pub k: u32,
    pub work: u64,
}
