//! Each refusal of open and draw, and cases that just escape it.
use crate::cases::{absent, case, flip, four_switches, link, remove, set};
use crate::failure::Failure;
use crate::group::Group;
use crate::simple::forecast::{Answer, Lent, Refusal};
use crate::simple::records::Change;
use crate::tally::{Finding, Tally};
use faults::{Fault, Layer};
use std::alloc::Global;
use weights::{Class, Cost};

pub fn every_refusal(heap: Global) -> Result<Tally, Failure> {
    let mut group = Group::new(heap);
    short_tables(&mut group)?;
    bad_links(&mut group)?;
    unjoined(&mut group)?;
    bad_changes(&mut group)?;
    high_classes(&mut group.tally);
    Ok(group.tally)
}

/// The four-switch plant with a good change and a bad one, and tables one item shorter or longer than needed. The bad
/// change is found only where no table is too short. A link table may not be longer either.
fn short_tables(group: &mut Group) -> Result<(), Failure> {
    let bad = Refusal::LinkOutside(2);
    // The lengths of the link table, the tree table, the work area of open, the start list, the entry table and the work
    // area of draw.
    let tables = [
        ([5, 3, 576, 3, 2, 704], bad),
        ([4, 3, 576, 3, 2, 704], Refusal::OpenTables),
        ([6, 3, 576, 3, 2, 704], Refusal::OpenTables),
        ([5, 2, 576, 3, 2, 704], Refusal::OpenTables),
        ([5, 4, 576, 3, 2, 704], bad),
        ([5, 3, 575, 3, 2, 704], Refusal::OpenTables),
        ([5, 3, 577, 3, 2, 704], bad),
        ([5, 3, 576, 2, 2, 704], Refusal::DrawTables),
        ([5, 3, 576, 4, 2, 704], bad),
        ([5, 3, 576, 3, 1, 704], Refusal::DrawTables),
        ([5, 3, 576, 3, 3, 704], bad),
        ([5, 3, 576, 3, 2, 703], Refusal::DrawTables),
        ([5, 3, 576, 3, 2, 705], bad),
    ];
    for ([links, tree, open_work, start, entries, draw_work], refusal) in tables {
        let mut plant = case(group.heap, 4, &four_switches(), &[set(4, 3), flip(6)])?;
        plant.lent = Lent {
            links,
            tree,
            open_work,
            start,
            entries,
            draw_work,
        };
        group.answer_is::<Cost>(&plant, Err(refusal))?;
    }
    Ok(())
}

/// Ends that are no nodes, ends that are one node, and links that do not join all nodes: in a network of three nodes,
/// with a good link before the one in question.
fn bad_links(group: &mut Group) -> Result<(), Failure> {
    let links = [
        (link(2, 3, 5), Ok(())),
        (link(0, 3, 5), Err(Refusal::EndOutside(2))),
        (link(3, 0, 5), Err(Refusal::EndOutside(2))),
        (link(2, 4, 5), Err(Refusal::EndOutside(2))),
        (link(4, 4, 5), Err(Refusal::EndOutside(2))),
        (link(3, 3, 5), Err(Refusal::SameEnds(2))),
        (link(2, 1, 5), Err(Refusal::NotJoined)),
        (absent(2, 3, 5), Err(Refusal::NotJoined)),
    ];
    for (second, answer) in links {
        let plant = case(group.heap, 3, &[link(1, 2, 5), second], &[set(1, 6)])?;
        group.answer_is::<Cost>(&plant, answer)?;
    }
    let both = case(group.heap, 3, &[link(3, 3, 5), link(0, 3, 5)], &[])?;
    group.answer_is::<Cost>(&both, Err(Refusal::SameEnds(1)))
}

/// No node, one node and two nodes without a good link.
fn unjoined(group: &mut Group) -> Result<(), Failure> {
    let none = case(group.heap, 0, &[], &[])?;
    group.answer_is::<Cost>(&none, Err(Refusal::NodeCount))?;
    let one = case(group.heap, 1, &[], &[flip(1)])?;
    group.answer_is::<Cost>(&one, Err(Refusal::LinkOutside(1)))?;
    let tied = case(group.heap, 1, &[link(1, 1, 5)], &[])?;
    group.answer_is::<Cost>(&tied, Err(Refusal::SameEnds(1)))?;
    let two = case(group.heap, 2, &[], &[set(1, 5)])?;
    group.answer_is::<Cost>(&two, Err(Refusal::NotJoined))
}

/// Draws changes of the four-switch plant with link 5 absent.
fn draws_as(group: &mut Group, changes: &[Change], answer: Answer<()>) -> Result<(), Failure> {
    let mut plant = case(group.heap, 4, &four_switches(), changes)?;
    if let Some(fifth) = plant.links.get_mut(4) {
        fifth.present = false;
    }
    group.answer_is::<Cost>(&plant, answer)
}

/// Faulty changes are found before one that parts the network, wherever they stand.
fn bad_changes(group: &mut Group) -> Result<(), Failure> {
    draws_as(group, &[flip(0)], Err(Refusal::LinkOutside(1)))?;
    draws_as(group, &[set(6, 1)], Err(Refusal::LinkOutside(1)))?;
    let second = [flip(5), remove(6)];
    draws_as(group, &second, Err(Refusal::LinkOutside(2)))?;
    draws_as(group, &[remove(5)], Err(Refusal::RemoveAbsent(1)))?;
    draws_as(group, &[flip(5), remove(5)], Ok(()))?;
    let twice = [remove(4), remove(4), flip(9)];
    draws_as(group, &twice, Err(Refusal::RemoveAbsent(2)))?;
    let last = [remove(1), remove(2), remove(3), flip(6)];
    draws_as(group, &last, Err(Refusal::LinkOutside(4)))?;
    let removes = [remove(1), remove(2), set(1, 1)];
    draws_as(group, &removes, Err(Refusal::Parted(2)))?;
    let flips = [remove(1), flip(5), flip(2), set(1, 1)];
    draws_as(group, &flips, Err(Refusal::Parted(3)))?;
    let joined = [remove(1), flip(5), flip(4), set(1, 1)];
    draws_as(group, &joined, Ok(()))
}

/// Classes go up to 7.
fn high_classes(tally: &mut Tally) {
    let fault = Fault {
        layer: Layer::Book,
        code: 16,
        place: 0,
    };
    for class in 0..20 {
        tally.count_case();
        let heard = Class::new(class, 5).err().map(Fault::from);
        if heard.is_some() {
            tally.count_refusal();
        }
        let wanted = (class > 7).then_some(fault);
        tally.expect(heard == wanted, Finding::Class);
    }
}
