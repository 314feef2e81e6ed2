//! The book of a network.
ghost use Rattle.std.specs.Prelude.{◌≡◌, false, length, is_some};
ghost use Rattle.planner.specs.Open.{network_fault};

use faults::OpenFault;
use network::{Ends, LinkState};
use weights::Weight;

mod draw;
mod open;

// Not a Tables inside: every clause of open, draw and installation would name its tables one step further in.
/// A network over lent tables, opened or refused. Where its open was granted, the network is sound: its counts, tables
/// and ends are in range and its present links join all nodes.
#[derive(Drop)]
pub struct Book<'a, 'b, 'c, W: Weight> {
    n: u32,
    ends: &'a [Ends],
    links: &'b mut [LinkState<W>],
    tree: &'c mut [u32],
    // A refused book is no Err: it holds its tables until close, and each draw on it answers this fault.
    refusal: Option<OpenFault>,
    ghost sound: { is_some refusal ≡ false → is_some (network_fault n ends.now links.now (length tree.now)) ≡ false },
}
