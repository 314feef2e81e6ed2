//! The largest sizes, and one more.
use crate::cases::{case, flip, four_switches, link, remove, set};
use crate::failure::Failure;
use crate::group::Group;
use crate::simple::forecast::Refusal;
use crate::simple::records::{Change, Link};
use crate::tally::Tally;
use std::alloc::{AllocError, Global};
use weights::Cost;

pub fn largest_sizes(heap: Global) -> Result<Tally, Failure> {
    let mut group = Group::new(heap);
    most_nodes(&mut group)?;
    most_links(&mut group)?;
    most_changes(&mut group)?;
    Ok(group.tally)
}

/// The cost of link or change i. Many are level.
fn cost_of(i: u32) -> u32 {
    i.wrapping_mul(7919) % 1009
}

/// The number of the node that is so many steps after another on a ring of n nodes. The other is counted from 0.
fn after(n: u32, node: u32, steps: u32) -> u32 {
    node.saturating_add(steps)
        .checked_rem(n)
        .unwrap_or(0)
        .saturating_add(1)
}

/// m links among n nodes: rings over all nodes with steps of 1, 2, 3 and so on.
fn rings(heap: Global, n: u32, m: u32) -> Result<Vec<Link>, AllocError> {
    (0..m)
        .map(|i| {
            let steps = i.checked_div(n).unwrap_or(0).saturating_add(1);
            link(after(n, i, 0), after(n, i, steps), cost_of(i))
        })
        .collect(heap)
}

/// 4,096 nodes, and 4,097. Two removes part a ring.
fn most_nodes(group: &mut Group) -> Result<(), Failure> {
    let changes = [
        remove(17),
        set(4098, 0),
        set(17, 2000),
        flip(4097),
        set(99, 5000),
    ];
    let heap = group.heap;
    let links = rings(heap, 4096, 4099)?;
    let most = case(heap, 4096, links.as_slice(), &changes)?;
    group.answer_is::<Cost>(&most, Ok(()))?;
    let ring = rings(heap, 4096, 4096)?;
    let parted = case(heap, 4096, ring.as_slice(), &[remove(17), remove(2017)])?;
    group.answer_is::<Cost>(&parted, Err(Refusal::Parted(2)))?;
    let links = rings(heap, 4097, 4099)?;
    let over = case(heap, 4097, links.as_slice(), &changes)?;
    group.answer_is::<Cost>(&over, Err(Refusal::NodeCount))
}

/// 16,384 links, and 16,385.
fn most_links(group: &mut Group) -> Result<(), Failure> {
    let changes = [set(16384, 0), remove(16384), flip(1010)];
    let heap = group.heap;
    let links = rings(heap, 150, 16384)?;
    let most = case(heap, 150, links.as_slice(), &changes)?;
    group.answer_is::<Cost>(&most, Ok(()))?;
    let links = rings(heap, 150, 16385)?;
    let over = case(heap, 150, links.as_slice(), &changes)?;
    group.answer_is::<Cost>(&over, Err(Refusal::LinkCount))
}

/// k changes of the four-switch plant: its ring of four links stays present, the fifth link comes and goes.
fn changes(heap: Global, k: u32) -> Result<Vec<Change>, AllocError> {
    (0..k)
        .map(|i| {
            if i % 3 == 0 {
                flip(5)
            } else if i % 11 == 1 {
                set(5, cost_of(i))
            } else {
                set(i % 4 + 1, cost_of(i))
            }
        })
        .collect(heap)
}

/// 65,536 changes, and 65,537.
fn most_changes(group: &mut Group) -> Result<(), Failure> {
    let heap = group.heap;
    let batch = changes(heap, 65536)?;
    let most = case(heap, 4, &four_switches(), batch.as_slice())?;
    group.answer_is::<Cost>(&most, Ok(()))?;
    let batch = changes(heap, 65537)?;
    let over = case(heap, 4, &four_switches(), batch.as_slice())?;
    group.answer_is::<Cost>(&over, Err(Refusal::ChangeCount))
}
