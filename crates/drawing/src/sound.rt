//! A network whose counts, tables and ends are in range.
ghost use Rattle.std.specs.Prelude.{◌≡◌, ◌≤◌, length, None};
ghost use Rattle.network.specs.Ends.{first_end_fault};

use network::{Ends, LinkState};
use weights::Ordered;

/// A network over lent tables: n nodes, the ends of its links, and their weights and states.
#[derive(Drop)]
pub struct Network<'a, 'b, W: Ordered> {
    pub n: u32,
    pub ends: &'a [Ends],
    pub links: &'b [LinkState<W>],
    ghost nodes: { (1 ≤ n) × (n ≤ 4096) },
    ghost few: { length ends.now ≤ 16384 },
    ghost even: { length ends.now ≡ length links.now },
    ghost ends_known: { first_end_fault n 1 ends.now ≡ None },
}
