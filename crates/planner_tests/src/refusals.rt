//! Every refusal of open and draw, and that the tables stand after it.
use crate::helpers::*;
use faults::Layer;
use network::{Change, Ends, LinkState};
use planner::{Book, Tables};
use std::process::Abort;
use std::test::Fail;
use weights::Cost;

/// Checks that a network of present links of weight 5 is not opened, and that its tables stand.
fn no_book(rt: &impl Abort, n: u32, ends: &[Ends], code: u32, place: u32) -> Result<(), Fail> {
    let mut links = [at(5); 2];
    let mut tree = [9u32; 3];
    {
        let book = Book::open(
            Tables {
                n,
                ends,
                links: &mut links,
                tree: &mut tree,
            },
            &mut [0u32; 384],
        );
        not_opened(rt, book.refusal(), code, place);
    }
    assert_eq!(rt; links, [at(5); 2]);
    assert_eq!(rt; tree, [9u32; 3]);
    Ok(())
}

#[test]
fn opens_refused(rt: HostRuntime) -> Result<(), Fail> {
    no_book(&rt, 0, &[link(1, 2); 2], 10, 0)?;
    no_book(&rt, 4097, &[link(1, 2); 2], 10, 0)?;
    no_book(&rt, 2, &[link(1, 2); 16385], 11, 0)?;
    // Another number of ends, a short tree table, and a short work area.
    no_book(&rt, 2, &[link(1, 2)], 12, 0)?;
    no_book(&rt, 5, &[link(1, 2); 2], 12, 0)?;
    no_book(&rt, 2, &[link(1, 2); 5], 12, 0)?;
    no_book(&rt, 3, &[link(1, 2), link(2, 4)], 13, 2)?;
    no_book(&rt, 3, &[link(0, 2), link(2, 3)], 13, 1)?;
    no_book(&rt, 3, &[link(1, 2), link(3, 3)], 14, 2)?;
    no_book(&rt, 3, &[link(1, 2), link(2, 1)], 15, 0)
}

/// A work area of one word less than a network of 3 nodes and 2 links needs; 4 nodes and 2 links need just what there is.
#[test]
fn short_work(rt: HostRuntime) -> Result<(), Fail> {
    let ends = [link(1, 2), link(2, 3)];
    no_book(&rt, 4, &ends, 15, 0)?;
    let mut links = [at(5); 2];
    let mut tree = [9u32; 3];
    {
        let book = Book::open(
            Tables {
                n: 3,
                ends: &ends,
                links: &mut links,
                tree: &mut tree,
            },
            &mut [0u32; 319],
        );
        not_opened(&rt, book.refusal(), 12, 0);
    }
    assert_eq!(rt; tree, [9u32; 3]);
    Ok(())
}

/// Checks that a batch is not drawn from the four-switch plant with link 5 absent, with a start list of s numbers, an
/// entry table of e entries and a work area of w words; and that all tables stand.
fn no_plan(
    rt: &impl Abort,
    batch: &[Change<Cost>],
    s: usize,
    e: usize,
    w: usize,
    code: u32,
    place: u32,
) -> Result<(), Fail> {
    assert!(rt; s <= 4 && e <= 4 && w <= 768);
    let ends = four_ends();
    let stood = [at(5), at(4), at(6), at(7), gone(8)];
    let mut links = stood;
    let mut tree = [9u32; 4];
    let mut start = [9u32; 4];
    let mut entries = [(9u32, 9u32); 4];
    let mut work = [0u32; 768];
    {
        let mut book = Book::open(
            Tables {
                n: 4,
                ends: &ends,
                links: &mut links,
                tree: &mut tree,
            },
            &mut work,
        );
        assert!(rt; book.refusal().is_none());
        let answer = book.draw(batch, &mut start[0..s], &mut entries[0..e], &mut work[0..w]);
        refused(rt, answer, Layer::Planner, code, place);
    }
    assert_eq!(rt; links, stood);
    assert_eq!(rt; tree, [1u32, 2, 3, 9]);
    assert_eq!(rt; start, [9u32; 4]);
    assert_eq!(rt; entries, [(9u32, 9u32); 4]);
    Ok(())
}

#[test]
fn draws_refused(rt: HostRuntime) -> Result<(), Fail> {
    let two = [Change::Set(4, Cost(3)), Change::Remove(2)];
    no_plan(&rt, &two, 2, 4, 768, 21, 0)?;
    no_plan(&rt, &two, 4, 1, 768, 21, 0)?;
    no_plan(&rt, &two, 4, 4, 703, 21, 0)?;
    no_plan(&rt, &[Change::Flip(0)], 4, 4, 768, 22, 1)?;
    no_plan(&rt, &[Change::Flip(5), Change::Remove(6)], 4, 4, 768, 22, 2)?;
    no_plan(&rt, &[Change::Remove(5)], 4, 4, 768, 23, 1)?;
    no_plan(
        &rt,
        &[Change::Remove(4), Change::Remove(4)],
        4,
        4,
        768,
        23,
        2,
    )?;
    no_plan(
        &rt,
        &[Change::Remove(4), Change::Remove(3)],
        4,
        4,
        768,
        24,
        2,
    )
}

#[test]
fn too_many_changes(rt: HostRuntime) -> Result<(), Fail> {
    let batch = vec![in rt.alloc(); Change::Set(1, Cost(5)); 65537]?;
    no_plan(&rt, &batch, 4, 4, 768, 20, 0)
}

/// A book whose open was refused refuses every draw, and tells why it was not opened.
#[test]
fn unjoined(rt: HostRuntime) -> Result<(), Fail> {
    let mut links = [at(5)];
    let mut tree = [9u32; 2];
    let mut start = [9u32; 2];
    let mut entries = [(9u32, 9u32); 1];
    let out = Out {
        tree: &mut tree,
        start: &mut start,
        entries: &mut entries,
    };
    let answer = open_and_draw(
        3,
        &[link(1, 2)],
        &mut links,
        &[Change::Flip(9)],
        out,
        &mut [0u32; 320],
    );
    refused(&rt, answer, Layer::Book, 15, 0);
    assert_eq!(rt; tree, [9u32; 2]);
    assert_eq!(rt; start, [9u32; 2]);
    assert_eq!(rt; entries, [(9u32, 9u32)]);
    Ok(())
}
