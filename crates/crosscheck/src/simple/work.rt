//! Blocks of changes, and the work count: the links that blocks receive, summed over all blocks of a batch.
use crate::simple::order::{Edge, Rank, Ranked};
use crate::simple::records::{Change, Link, apply, index};
use crate::simple::tree::{Labels, least_forest};
use std::alloc::{AllocError, Global};

/// The graph that a block receives. Its nodes are numbered for themselves; its links have the network's numbers.
#[derive(Drop)]
struct Graph {
    nodes: u32,
    edges: Vec<Edge>,
}

impl Graph {
    /// The graph of a whole network, absent links included.
    fn whole(heap: Global, n: u32, links: &[Link]) -> Result<Graph, AllocError> {
        let edges = (1u32..)
            .zip(links)
            .map(|(number, link)| Edge::of(number, link))
            .collect(heap)?;
        Ok(Graph { nodes: n, edges })
    }
}

/// A block of changes, and the links as they stand before it.
#[derive(Clone, Copy)]
struct Block<'a> {
    heap: Global,
    links: &'a [Link],
    changes: &'a [Change],
}

impl Block<'_> {
    /// Whether one of the changes names this link.
    fn names(&self, number: u32) -> bool {
        self.changes.iter().any(|change| change.link == number)
    }

    /// The links of a graph that the changes do not name, as they stand.
    fn others(&self, graph: &Graph) -> Result<Vec<Ranked>, AllocError> {
        graph
            .edges
            .iter()
            .filter(|edge| !self.names(edge.number))
            .filter_map(|edge| {
                self.links.get(index(edge.number)).map(|link| Ranked {
                    rank: Rank::from(*link),
                    edge: *edge,
                })
            })
            .collect(self.heap)
    }

    /// The named links of a graph, and the least forest of all others.
    fn reduced(&self, graph: &Graph) -> Result<Graph, AllocError> {
        let forest = least_forest(self.heap, graph.nodes, self.others(graph)?)?;
        let edges = graph
            .edges
            .iter()
            .copied()
            .filter(|edge| self.names(edge.number) || forest.keeps(edge.number))
            .collect(self.heap)?;
        Ok(Graph {
            nodes: graph.nodes,
            edges,
        })
    }

    /// All nodes of a graph, with the ends of each link joined that is not named and is in the least forest with the named
    /// ones first.
    fn merging(&self, graph: &Graph) -> Result<Labels, AllocError> {
        let mut order = self.others(graph)?;
        let named = graph.edges.iter().filter(|edge| self.names(edge.number));
        order.extend(named.map(|edge| Ranked {
            rank: Rank::Named,
            edge: *edge,
        }))?;
        let forest = least_forest(self.heap, graph.nodes, order)?;
        let mut labels = Labels::apart(self.heap, graph.nodes)?;
        for edge in graph.edges.iter() {
            if forest.keeps(edge.number) && !self.names(edge.number) {
                labels.join(edge.a, edge.b);
            }
        }
        Ok(labels)
    }

    /// The same links on merged nodes.
    fn contracted(&self, graph: &Graph) -> Result<Graph, AllocError> {
        let merged = self.merging(graph)?.merged(self.heap)?;
        let edges = graph
            .edges
            .iter()
            .map(|edge| Edge {
                number: edge.number,
                a: merged.number(edge.a),
                b: merged.number(edge.b),
            })
            .collect(self.heap)?;
        Ok(Graph {
            nodes: merged.nodes,
            edges,
        })
    }

    /// What both halves of the block receive, of the graph that it receives.
    fn thinned(&self, graph: &Graph) -> Result<Graph, AllocError> {
        let reduced = self.reduced(graph)?;
        let contracted = self.contracted(&reduced)?;
        self.reduced(&contracted)
    }
}

/// The work of a block and of all blocks that it is split into. Makes the block's changes, so that the second half finds
/// what the first leaves.
fn block_work(
    heap: Global,
    links: &mut [Link],
    graph: &Graph,
    changes: &[Change],
) -> Result<u64, AllocError> {
    let received = graph.edges.len() as u64;
    if changes.len() < 2 {
        if let Some(change) = changes.first() {
            apply(links, *change);
        }
        return Ok(received);
    }
    let block = Block {
        heap,
        links,
        changes,
    };
    let thinned = block.thinned(graph)?;
    let (first, rest) = changes.split_at(changes.len() - changes.len() / 2);
    let one = block_work(heap, links, &thinned, first)?;
    let other = block_work(heap, links, &thinned, rest)?;
    Ok(received.saturating_add(one).saturating_add(other))
}

/// The work count of a batch: top blocks have as many changes as the network has links.
pub fn work_count(
    heap: Global,
    n: u32,
    links: &[Link],
    changes: &[Change],
) -> Result<u64, AllocError> {
    let mut links = links.to_vec(heap)?;
    let graph = Graph::whole(heap, n, links.as_slice())?;
    let mut work = 0u64;
    for top in changes.chunks(links.len().max(1)) {
        work = work.saturating_add(block_work(heap, links.as_mut_slice(), &graph, top)?);
    }
    Ok(work)
}
