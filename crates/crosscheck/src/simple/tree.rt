//! The least forest of some links, and the least tree of a network.
use crate::simple::order::{Edge, Rank, Ranked};
use crate::simple::records::{Link, index};
use std::alloc::{AllocError, Global};
use std::collections::BTreeSet;
use std::collections::btree_set::Intersection;

/// What stands at a node's place in a table, or 0.
fn at(table: &[u32], node: u32) -> u32 {
    table.get(index(node)).copied().unwrap_or(0)
}

/// A label for each node. Nodes that are joined have one label, that of the smallest of them.
#[derive(Drop)]
pub struct Labels {
    labels: Vec<u32>,
}

impl Labels {
    /// Nodes 1 to n, none joined to another.
    pub fn apart(heap: Global, n: u32) -> Result<Labels, AllocError> {
        let labels = (1..=n).collect(heap)?;
        Ok(Labels { labels })
    }

    /// The label of a node.
    pub fn of(&self, node: u32) -> u32 {
        at(&self.labels, node)
    }

    /// Joins two nodes and all that are joined to them. Says whether they were apart.
    pub fn join(&mut self, a: u32, b: u32) -> bool {
        let stays = self.of(a).min(self.of(b));
        let goes = self.of(a).max(self.of(b));
        if stays == goes {
            return false;
        }
        for label in self.labels.iter_mut() {
            *label = if *label == goes { stays } else { *label };
        }
        true
    }

    /// Whether all nodes are joined.
    pub fn all_joined(&self) -> bool {
        self.labels.iter().all(|label| *label == 1)
    }

    /// The number of each node where joined nodes become one: they are numbered from 1 by their smallest.
    pub fn merged(&self, heap: Global) -> Result<Merged, AllocError> {
        let mut numbers: Vec<u32> = Vec::new(heap);
        let mut nodes = 0u32;
        for (node, label) in (1u32..).zip(self.labels.iter()) {
            let number = if *label == node {
                nodes = nodes.saturating_add(1);
                nodes
            } else {
                at(&numbers, *label)
            };
            numbers.push(number)?;
        }
        Ok(Merged { nodes, numbers })
    }
}

/// Nodes after some were merged: how many there are, and the new number of each old one.
#[derive(Drop)]
pub struct Merged {
    pub nodes: u32,
    numbers: Vec<u32>,
}

impl Merged {
    /// The new number of a node.
    pub fn number(&self, node: u32) -> u32 {
        at(&self.numbers, node)
    }
}

/// A forest: the numbers of the links that are kept.
#[derive(Drop)]
pub struct Forest {
    kept: BTreeSet<u32>,
}

impl Forest {
    /// Whether the link of this number is kept.
    pub fn keeps(&self, number: u32) -> bool {
        self.kept.contains(&number)
    }

    /// The numbers of the kept links, ascending.
    pub fn numbers(&self, heap: Global) -> Result<Vec<u32>, AllocError> {
        self.kept.iter().copied().collect(heap)
    }

    /// The links that both keep, ascending.
    pub fn common<'a>(&'a self, other: &'a Forest) -> Intersection<'a, u32, Global> {
        self.kept.intersection(&other.kept)
    }

    /// The first link that this forest keeps and the other does not.
    pub fn only_here(&self, other: &Forest) -> Option<u32> {
        self.kept.difference(&other.kept).next().copied()
    }
}

/// The least forest: goes through links in order and keeps one exactly if the kept ones do not yet join its ends. Gives the
/// labels of the nodes that it joins, too.
fn grow(heap: Global, n: u32, mut links: Vec<Ranked>) -> Result<(Forest, Labels), AllocError> {
    links.sort_unstable();
    let mut labels = Labels::apart(heap, n)?;
    let mut kept = BTreeSet::new(heap);
    for link in links.iter() {
        let edge = link.edge;
        if labels.join(edge.a, edge.b) {
            kept.insert(edge.number)?;
        }
    }
    Ok((Forest { kept }, labels))
}

/// The least forest of some links.
pub fn least_forest(heap: Global, n: u32, links: Vec<Ranked>) -> Result<Forest, AllocError> {
    let (forest, _) = grow(heap, n, links)?;
    Ok(forest)
}

/// The least tree of a network, the least forest of its present links, if these join all nodes.
pub fn least_tree(heap: Global, n: u32, links: &[Link]) -> Result<Option<Forest>, AllocError> {
    let present = (1u32..)
        .zip(links)
        .filter(|(_, link)| link.present)
        .map(|(number, link)| Ranked {
            rank: Rank::from(*link),
            edge: Edge::of(number, link),
        })
        .collect(heap)?;
    let (forest, labels) = grow(heap, n, present)?;
    Ok(labels.all_joined().then_some(forest))
}

/// Whether the present links of a network join all its nodes.
pub fn joined(heap: Global, n: u32, links: &[Link]) -> Result<bool, AllocError> {
    let mut labels = Labels::apart(heap, n)?;
    for link in links.iter().filter(|link| link.present) {
        labels.join(link.a, link.b);
    }
    Ok(labels.all_joined())
}
