//! What the examples share.
use faults::{DrawFault, Fault, Layer, OpenFault};
use network::{Change, Ends, LinkState, Node};
use planner::{Book, Drawn, Tables};
use std::process::Abort;
use weights::{Cost, Weight};

/// A link between two nodes.
// A short name for many literals: a constructor in `network` would be written no shorter at each.
pub(crate) fn link(a: u32, b: u32) -> Ends {
    Ends {
        a: Node(a),
        b: Node(b),
    }
}

/// A present link's weight and state.
pub(crate) fn at(cost: u32) -> LinkState<Cost> {
    LinkState {
        weight: Cost(cost),
        present: true,
    }
}

/// An absent link's weight and state.
pub(crate) fn gone(cost: u32) -> LinkState<Cost> {
    LinkState {
        weight: Cost(cost),
        present: false,
    }
}

/// The four-switch plant: the ends of its links.
pub(crate) fn four_ends() -> [Ends; 5] {
    [link(1, 2), link(2, 3), link(3, 4), link(4, 1), link(1, 3)]
}

/// The four-switch plant: its links.
pub(crate) fn four_links() -> [LinkState<Cost>; 5] {
    [at(5), at(4), at(6), at(7), at(8)]
}

/// The tables that a draw writes.
#[derive(Drop)]
pub struct Out<'a, 'b, 'c> {
    pub tree: &'a mut [u32],
    pub start: &'b mut [u32],
    pub entries: &'c mut [(u32, u32)],
}

/// Opens a network and draws one batch.
pub(crate) fn open_and_draw<W: Weight>(
    n: u32,
    ends: &[Ends],
    links: &mut [LinkState<W>],
    batch: &[Change<W>],
    out: Out<'_, '_, '_>,
    work: &mut [u32],
) -> Result<Drawn, DrawFault> {
    let Out {
        tree,
        start,
        entries,
    } = out;
    let mut book = Book::open(
        Tables {
            n,
            ends,
            links,
            tree,
        },
        work,
    );
    book.draw(batch, start, entries, work)
}

/// Checks that a draw was refused with this report. Layer, code and place come one by one, so that a case stands in one line.
pub(crate) fn refused(
    rt: &impl Abort,
    answer: Result<Drawn, DrawFault>,
    layer: Layer,
    code: u32,
    place: u32,
) {
    let report = Fault { layer, code, place };
    assert_eq!(rt; answer.err().map(|fault| Fault::from(fault)), Some(report));
}

/// Checks that an open was refused with this code and place.
// Not one function with `refused`: what a draw answers beside its fault has to be let go.
pub(crate) fn not_opened(rt: &impl Abort, refusal: Option<OpenFault>, code: u32, place: u32) {
    let report = Fault {
        layer: Layer::Book,
        code,
        place,
    };
    assert_eq!(rt; refusal.map(|fault| Fault::from(fault)), Some(report));
}
