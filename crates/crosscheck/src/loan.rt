//! The tables that are lent to the planner, and its calls on them.
use crate::failure::Failure;
use crate::simple::forecast::Case;
use crate::simple::records::{Action, Change, Link, Weight};
use faults::{DrawFault, OpenFault, WeightFault};
use network::{Ends, LinkState, Node};
use planner::{Book, Drawn, Tables};
use std::alloc::Global;
use std::iter::repeat;
use weights::{Class, Cost};

/// What stands in tables before the planner writes there.
pub const BLANK: u32 = 0xdead_beef;

/// What stands in a link table past the links of its case.
const SPARE: Link = Link {
    a: 0,
    b: 0,
    weight: Weight { class: 0, cost: 77 },
    present: false,
};

/// A weight kind of the planner.
pub trait Kind: weights::Weight + PartialEq + TryFrom<Weight, Error = WeightFault> {
    /// How many classes its weights have.
    const CLASSES: u32;
}

impl TryFrom<Weight> for Cost {
    type Error = WeightFault;

    fn try_from(weight: Weight) -> Result<Cost, WeightFault> {
        Ok(Cost(weight.cost))
    }
}

impl Kind for Cost {
    const CLASSES: u32 = 1;
}

impl TryFrom<Weight> for Class {
    type Error = WeightFault;

    fn try_from(weight: Weight) -> Result<Class, WeightFault> {
        Class::new(weight.class, weight.cost)
    }
}

impl Kind for Class {
    const CLASSES: u32 = 8;
}

/// A change as the planner takes it.
impl<W: Kind> TryFrom<Change> for network::Change<W> {
    type Error = WeightFault;

    fn try_from(change: Change) -> Result<network::Change<W>, WeightFault> {
        let Change { link, action } = change;
        match action {
            Action::Set(weight) => Ok(network::Change::Set(link, W::try_from(weight)?)),
            Action::Remove => Ok(network::Change::Remove(link)),
            Action::Flip => Ok(network::Change::Flip(link)),
        }
    }
}

/// The ends of a link.
impl From<Link> for Ends {
    fn from(link: Link) -> Ends {
        Ends {
            a: Node(link.a),
            b: Node(link.b),
        }
    }
}

/// The weight and the state of a link.
impl<W: Kind> TryFrom<Link> for LinkState<W> {
    type Error = WeightFault;

    fn try_from(link: Link) -> Result<LinkState<W>, WeightFault> {
        let weight = W::try_from(link.weight)?;
        Ok(LinkState {
            weight,
            present: link.present,
        })
    }
}

/// The tables that a network is opened over.
#[derive(Drop)]
pub struct Opening<W> {
    n: u32,
    pub ends: Vec<Ends>,
    links: Vec<LinkState<W>>,
    pub tree: Vec<u32>,
    work: Vec<u32>,
}

impl<W: Kind> Opening<W> {
    fn of(heap: Global, case: &Case) -> Result<Opening<W>, Failure> {
        let ends = case
            .links
            .iter()
            .map(|link| Ends::from(*link))
            .collect(heap)?;
        let links = case
            .links
            .iter()
            .copied()
            .chain(repeat(SPARE))
            .take(case.lent.links)
            .map(|link| -> Result<LinkState<W>, Failure> { Ok(LinkState::try_from(link)?) })
            .try_collect(heap)?;
        Ok(Opening {
            n: case.n,
            ends,
            links,
            tree: vec![in heap; BLANK; case.lent.tree]?,
            work: vec![in heap; BLANK; case.lent.open_work]?,
        })
    }

    /// The book of the network.
    fn book(&mut self) -> Book<'_, '_, '_, W> {
        let Opening {
            n,
            ends,
            links,
            tree,
            work,
        } = self;
        let tables = Tables {
            n: *n,
            ends: ends.as_slice(),
            links: links.as_mut_slice(),
            tree: tree.as_mut_slice(),
        };
        Book::open(tables, work.as_mut_slice())
    }
}

/// The tables that a batch is drawn with.
#[derive(Drop)]
pub struct Drawing<W> {
    batch: Vec<network::Change<W>>,
    pub start: Vec<u32>,
    pub entries: Vec<(u32, u32)>,
    work: Vec<u32>,
}

impl<W: Kind> Drawing<W> {
    pub fn of(heap: Global, case: &Case) -> Result<Drawing<W>, Failure> {
        let batch = case
            .changes
            .iter()
            .map(|change| -> Result<network::Change<W>, Failure> {
                Ok(network::Change::try_from(*change)?)
            })
            .try_collect(heap)?;
        Ok(Drawing {
            batch,
            start: vec![in heap; BLANK; case.lent.start]?,
            entries: vec![in heap; (BLANK, BLANK); case.lent.entries]?,
            work: vec![in heap; BLANK; case.lent.draw_work]?,
        })
    }

    /// Draws the batch from a book.
    fn draw(&mut self, book: &mut Book<'_, '_, '_, W>) -> Result<Drawn, DrawFault> {
        book.draw(
            self.batch.as_slice(),
            self.start.as_mut_slice(),
            self.entries.as_mut_slice(),
            self.work.as_mut_slice(),
        )
    }
}

/// The tables of a case.
#[derive(Drop)]
pub struct Loan<W> {
    pub opening: Opening<W>,
    pub drawing: Drawing<W>,
}

impl<W: Kind> Loan<W> {
    pub fn of(heap: Global, case: &Case) -> Result<Loan<W>, Failure> {
        Ok(Loan {
            opening: Opening::of(heap, case)?,
            drawing: Drawing::of(heap, case)?,
        })
    }

    /// Opens the network.
    pub fn open(&mut self) -> Result<(), OpenFault> {
        self.opening.book().refusal().map_or(Ok(()), Err)
    }

    /// Opens the network and draws the batch.
    pub fn draw(&mut self) -> Result<Drawn, DrawFault> {
        self.drawing.draw(&mut self.opening.book())
    }

    /// Opens the network, draws the batch, and then a second one from the same book, with tables that take the place of
    /// the first ones.
    pub fn draw_again(&mut self, second: Drawing<W>) -> Result<Drawn, DrawFault> {
        let mut book = self.opening.book();
        let _ = self.drawing.draw(&mut book);
        self.drawing = second;
        self.drawing.draw(&mut book)
    }

    /// Whether the link table has these links, and past them spare ones.
    pub fn has_links(&self, links: &[Link]) -> Result<bool, Failure> {
        let wanted = links.iter().copied().chain(repeat(SPARE));
        for (state, link) in self.opening.links.iter().zip(wanted) {
            if *state != LinkState::<W>::try_from(link)? {
                return Ok(false);
            }
        }
        Ok(true)
    }
}
