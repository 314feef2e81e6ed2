//! Worked plants, small enough to follow by hand.
use crate::helpers::*;
use faults::{Fault, Layer};
use network::{Change, LinkState};
use planner::{Book, Drawn, Tables};
use std::process::Abort;
use std::test::Fail;
use weights::{Class, Cost};

#[test]
fn four_switches(rt: HostRuntime) -> Result<(), Fail> {
    let batch = [
        Change::Set(4, Cost(3)),
        Change::Remove(2),
        Change::Set(5, Cost(6)),
        Change::Flip(2),
        Change::Set(1, Cost(9)),
    ];
    let mut links = four_links();
    let mut tree = [9u32; 5];
    let mut start = [9u32; 4];
    let mut entries = [(9u32, 9u32); 6];
    let out = Out {
        tree: &mut tree,
        start: &mut start,
        entries: &mut entries,
    };
    let drawn = open_and_draw(4, &four_ends(), &mut links, &batch, out, &mut [0u32; 896])?;
    let counts = Drawn {
        n: 4,
        m: 5,
        k: 5,
        work: 39,
    };
    assert_eq!(rt; drawn, counts);
    assert_eq!(rt; start, [1u32, 2, 3, 9]);
    assert_eq!(rt;
        entries,
        [(3u32, 4u32), (2, 3), (0, 0), (3, 2), (1, 3), (9, 9)]
    );
    assert_eq!(rt; tree, [2u32, 3, 4, 9, 9]);
    assert_eq!(rt; links, [at(9), at(4), at(6), at(3), at(6)]);
    Ok(())
}

/// A plant of one entry: its work, start link, entry and link of the tree after it.
// Not one function with `parallel`: the work area is just as long as these sizes ask, and a const argument is not computed.
fn one_change(
    rt: &impl Abort,
    links: &mut [LinkState<Cost>],
    change: Change<Cost>,
    work: u64,
) -> Result<(u32, (u32, u32), u32), Fail> {
    let ends = [link(1, 2); 2];
    let m = links.len();
    assert!(rt; m <= 2);
    let mut tree = [9u32; 1];
    let mut start = [9u32; 1];
    let mut entries = [(9u32, 9u32); 1];
    let out = Out {
        tree: &mut tree,
        start: &mut start,
        entries: &mut entries,
    };
    let drawn = open_and_draw(2, &ends[0..m], links, &[change], out, &mut [0u32; 320])?;
    assert_eq!(rt; drawn.work, work);
    Ok((start[0], entries[0], tree[0]))
}

#[test]
fn two_nodes(rt: HostRuntime) -> Result<(), Fail> {
    let one = one_change(&rt, &mut [at(5)], Change::Set(1, Cost(9)), 1)?;
    assert!(rt; one.0 == 1 && one.2 == 1);
    assert_eq!(rt; one.1, (0u32, 0u32));
    let two = one_change(&rt, &mut [at(5), at(5)], Change::Set(1, Cost(6)), 2)?;
    assert!(rt; two.0 == 1 && two.2 == 2);
    assert_eq!(rt; two.1, (1u32, 2u32));
    Ok(())
}

#[test]
fn one_node(rt: HostRuntime) -> Result<(), Fail> {
    let mut links: [LinkState<Cost>; 0] = [];
    let mut tree = [9u32; 1];
    let mut start = [9u32; 1];
    let mut entries = [(9u32, 9u32); 1];
    let out = Out {
        tree: &mut tree,
        start: &mut start,
        entries: &mut entries,
    };
    let drawn = open_and_draw(1, &[], &mut links, &[], out, &mut [0u32; 64])?;
    let counts = Drawn {
        n: 1,
        m: 0,
        k: 0,
        work: 0,
    };
    assert_eq!(rt; drawn, counts);
    assert_eq!(rt; start, [9u32]);
    assert_eq!(rt; tree, [9u32]);
    assert_eq!(rt; entries, [(9u32, 9u32)]);
    Ok(())
}

/// A present link of a class weight.
fn in_class(class: u32, cost: u32) -> Result<LinkState<Class>, Fault> {
    Ok(LinkState {
        weight: Class::new(class, cost)?,
        present: true,
    })
}

/// The class counts first: of two parallel links that of class 0 and cost 900 is before that of class 1 and cost 2.
#[test]
fn class_first(rt: HostRuntime) -> Result<(), Fail> {
    let ends = [link(1, 2); 2];
    let mut links = [in_class(1, 2)?, in_class(0, 900)?];
    let mut tree = [9u32; 1];
    {
        let book = Book::open(
            Tables {
                n: 2,
                ends: &ends,
                links: &mut links,
                tree: &mut tree,
            },
            &mut [0u32; 256],
        );
        assert!(rt; book.refusal().is_none());
    }
    assert_eq!(rt; tree, [2u32]);
    Ok(())
}

#[test]
fn class_above(rt: HostRuntime) -> Result<(), Fail> {
    let report = Fault {
        layer: Layer::Book,
        code: 16,
        place: 0,
    };
    assert_eq!(rt; in_class(8, 0).err(), Some(report));
    Ok(())
}
