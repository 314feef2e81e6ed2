//! Links as a graph: what they join, Kruskal's forest, spanning trees, and how a block's graph is thinned. The functions here only carry
//! theorems: each has the statement as its contract.
#![tactic(auto)]

ghost use Rattle.graphs.specs.Theorems.{JoinsDecided, ForestKept, LinksCounted, LoopFreeFew, ForestLeast, TreesSpanning, ThinningKeeps};

pub use block_records::{BlockNode, Link};

/// Two nodes are joined exactly if a walk leads from one to the other, and a node's label is the smallest joined to it.
pub fn joins_decided()
    ensures { JoinsDecided }
{}

/// Kruskal's forest keeps a link exactly if the links before it do not join its ends; it is loop-free and joins what the links join.
pub fn forest_kept()
    ensures { ForestKept }
{}

/// Loop-free links and the roots that they leave are as many as the nodes; any links are at least as many.
pub fn links_counted()
    ensures { LinksCounted }
{}

/// Loop-free links are at most as many as links that join their ends.
pub fn loop_free_few()
    ensures { LoopFreeFew }
{}

/// Up to each link, no loop-free set of the links has more links than the forest.
pub fn forest_least()
    ensures { ForestLeast }
{}

/// All spanning trees have one size, and the forest is one exactly if the links join all nodes.
pub fn trees_spanning()
    ensures { TreesSpanning }
{}

/// A thinned graph is small and has the least forests of the graph received, whatever the order of the named links.
pub fn thinning_keeps()
    ensures { ThinningKeeps }
{}
