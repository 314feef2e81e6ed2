//! The largest networks.
use crate::helpers::*;
use network::Ends;
use planner::{Book, Tables};
use std::alloc::{AllocError, Global};
use std::process::Abort;
use std::test::Fail;
use weights::Cost;

/// The ends of m links among 4,096 nodes: rings over all nodes with steps of 1, 2, 3 and so on.
fn rings(heap: Global, m: u32) -> Result<Vec<Ends>, AllocError> {
    (0..m)
        .map(|i| {
            let step = (i / 4096).wrapping_add(1);
            let a = (i % 4096).wrapping_add(1);
            let b = (i.wrapping_add(step) % 4096).wrapping_add(1);
            link(a, b)
        })
        .collect(heap)
}

/// Checks whether n nodes are opened with m links, or refused with this code; with a tree table of 4,096 numbers that all become
/// links or stand.
fn open(rt: &impl Abort, heap: Global, n: u32, m: u32, code: Option<u32>) -> Result<(), Fail> {
    let ends = rings(heap, m)?;
    let mut links = vec![in heap; at(5); m as usize]?;
    let mut tree = vec![in heap; 0u32; 4096]?;
    let mut work = vec![in heap; 0u32; 1310720]?;
    {
        let book = Book::open(
            Tables {
                n,
                ends: &ends,
                links: &mut links,
                tree: &mut tree,
            },
            &mut work,
        );
        match code {
            None => assert!(rt; book.refusal().is_none()),
            Some(code) => not_opened(rt, book.refusal(), code, 0),
        }
    }
    assert!(rt; tree.len() == 4096);
    assert_eq!(rt; tree[0], if code.is_none() { 1 } else { 0 });
    assert_eq!(rt; tree[4094], if code.is_none() { 4095 } else { 0 });
    assert_eq!(rt; tree[4095], 0);
    Ok(())
}

#[test]
fn most_nodes(rt: HostRuntime) -> Result<(), Fail> {
    open(&rt, rt.alloc(), 4096, 4095, None)?;
    open(&rt, rt.alloc(), 4096, 4094, Some(15))?;
    open(&rt, rt.alloc(), 4097, 4096, Some(10))
}

#[test]
fn most_links(rt: HostRuntime) -> Result<(), Fail> {
    open(&rt, rt.alloc(), 4096, 16384, None)?;
    open(&rt, rt.alloc(), 4096, 16385, Some(11))
}
