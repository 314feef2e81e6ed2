//! Plans that a shortcut in the method would get wrong.
use crate::helpers::*;
use network::{Change, LinkState};
use std::process::Abort;
use std::test::Fail;
use weights::Cost;

/// The plan of three changes of parallel links between two nodes.
fn parallel(
    rt: &impl Abort,
    links: &mut [LinkState<Cost>],
    batch: &[Change<Cost>],
) -> Result<[(u32, u32); 3], Fail> {
    let ends = [link(1, 2); 3];
    let m = links.len();
    assert!(rt; m <= 3);
    let mut tree = [9u32; 1];
    let mut start = [9u32; 1];
    let mut entries = [(9u32, 9u32); 3];
    let out = Out {
        tree: &mut tree,
        start: &mut start,
        entries: &mut entries,
    };
    open_and_draw(2, &ends[0..m], links, batch, out, &mut [0u32; 512])?;
    Ok(entries)
}

/// Level links go by number, wherever they stand in a block's list: named links stand before the others there.
#[test]
fn level_by_number(rt: HostRuntime) -> Result<(), Fail> {
    let batch = [
        Change::Set(1, Cost(6)),
        Change::Set(3, Cost(5)),
        Change::Set(1, Cost(5)),
    ];
    let plan = parallel(&rt, &mut [at(5), at(5), at(5)], &batch)?;
    assert_eq!(rt; plan, [(1u32, 2u32), (0, 0), (2, 1)]);
    Ok(())
}

/// The largest weight is still before every absent link, whatever that link's weight and number.
#[test]
fn absent_after_all(rt: HostRuntime) -> Result<(), Fail> {
    let batch = [
        Change::Flip(1),
        Change::Remove(1),
        Change::Set(1, Cost(u32::MAX)),
    ];
    let plan = parallel(&rt, &mut [gone(1), at(u32::MAX)], &batch)?;
    assert_eq!(rt; plan, [(2u32, 1u32), (1, 2), (2, 1)]);
    Ok(())
}

/// The rest of a block sees the weights that its first half leaves: at the weights before the block, link 1 would still
/// be the tree at the second change.
#[test]
fn rest_sees_first_half(rt: HostRuntime) -> Result<(), Fail> {
    let batch = [
        Change::Set(1, Cost(9)),
        Change::Set(2, Cost(8)),
        Change::Set(3, Cost(10)),
    ];
    let plan = parallel(&rt, &mut [at(5), at(6), at(7)], &batch)?;
    assert_eq!(rt; plan, [(1u32, 2u32), (2, 3), (3, 2)]);
    Ok(())
}
