//! Plants that were worked out by hand.
use crate::cases::{case, flip, four_switches, in_class, link, remove, set};
use crate::failure::Failure;
use crate::group::Group;
use crate::known::Known;
use crate::simple::forecast::Refusal;
use crate::tally::Tally;
use std::alloc::Global;
use weights::{Class, Cost};

pub fn worked_plants(heap: Global) -> Result<Tally, Failure> {
    let mut group = Group::new(heap);
    plant_of_four(&mut group)?;
    small_plants(&mut group)?;
    class_first(&mut group)?;
    Ok(group.tally)
}

/// The four-switch plant: a plan of five changes, and two removes of which the second parts the network.
fn plant_of_four(group: &mut Group) -> Result<(), Failure> {
    let changes = [set(4, 3), remove(2), set(5, 6), flip(2), set(1, 9)];
    let plant = case(group.heap, 4, &four_switches(), &changes)?;
    let known = Known {
        start: &[1, 2, 3],
        entries: &[(3, 4), (2, 3), (0, 0), (3, 2), (1, 3)],
        work: 39,
    };
    group.plan_is::<Cost>(&plant, known)?;
    let parted = case(group.heap, 4, &four_switches(), &[remove(4), remove(3)])?;
    group.answer_is::<Cost>(&parted, Err(Refusal::Parted(2)))
}

/// One node; two nodes with one link; two parallel links.
fn small_plants(group: &mut Group) -> Result<(), Failure> {
    let heap = group.heap;
    let node = case(heap, 1, &[], &[])?;
    let nothing = Known {
        start: &[],
        entries: &[],
        work: 0,
    };
    group.plan_is::<Cost>(&node, nothing)?;
    let pair = case(heap, 2, &[link(1, 2, 5)], &[set(1, 9)])?;
    let one = Known {
        start: &[1],
        entries: &[(0, 0)],
        work: 1,
    };
    group.plan_is::<Cost>(&pair, one)?;
    let parallel = [link(1, 2, 5), link(1, 2, 5)];
    let parallel = case(heap, 2, &parallel, &[set(1, 6)])?;
    let two = Known {
        start: &[1],
        entries: &[(1, 2)],
        work: 2,
    };
    group.plan_is::<Cost>(&parallel, two)
}

/// Class 0 with cost 900 is before class 1 with cost 2. By cost alone it would be the other way round.
fn class_first(group: &mut Group) -> Result<(), Failure> {
    let plant = case(
        group.heap,
        2,
        &[in_class(1, 2, 1, 2), in_class(1, 2, 0, 900)],
        &[remove(2)],
    )?;
    let by_class = Known {
        start: &[2],
        entries: &[(2, 1)],
        work: 2,
    };
    group.plan_is::<Class>(&plant, by_class)?;
    let links = [link(1, 2, 2), link(1, 2, 900)];
    let plain = case(group.heap, 2, &links, &[remove(2)])?;
    let by_cost = Known {
        start: &[1],
        entries: &[(0, 0)],
        work: 2,
    };
    group.plan_is::<Cost>(&plain, by_cost)
}
