//! Tables over the nodes of a block's graph.
ghost use Rattle.std.specs.Prelude.{◌≡◌, ◌^◌, ◌<◌, ◌≤◌, length};

/// A word for each node and one more, for parents, and as many for new numbers.
#[derive(Drop)]
pub(crate) struct NodeTables<'a> {
    pub(crate) parent: &'a mut [u32],
    pub(crate) name: &'a mut [u32],
    ghost some: { 0 < length parent.now },
    ghost small: { length parent.now ≤ 2 ^ 32 },
    ghost even: { length name.now ≡ length parent.now },
}
