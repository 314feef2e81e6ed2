//! Cases written by hand.
use crate::simple::forecast::Case;
use crate::simple::records::{Action, Change, Link, Weight};
use std::alloc::{AllocError, Global};

/// A present link of a class.
pub fn in_class(a: u32, b: u32, class: u32, cost: u32) -> Link {
    Link {
        a,
        b,
        weight: Weight { class, cost },
        present: true,
    }
}

/// A present link.
pub fn link(a: u32, b: u32, cost: u32) -> Link {
    in_class(a, b, 0, cost)
}

/// An absent link.
pub fn absent(a: u32, b: u32, cost: u32) -> Link {
    Link {
        present: false,
        ..link(a, b, cost)
    }
}

pub fn set(link: u32, cost: u32) -> Change {
    Change {
        link,
        action: Action::Set(Weight { class: 0, cost }),
    }
}

pub fn remove(link: u32) -> Change {
    Change {
        link,
        action: Action::Remove,
    }
}

pub fn flip(link: u32) -> Change {
    Change {
        link,
        action: Action::Flip,
    }
}

/// A case with tables just as long as needed.
pub fn case(heap: Global, n: u32, links: &[Link], changes: &[Change]) -> Result<Case, AllocError> {
    Ok(Case::exact(n, links.to_vec(heap)?, changes.to_vec(heap)?))
}

/// The links of the four-switch plant.
pub fn four_switches() -> [Link; 5] {
    [
        link(1, 2, 5),
        link(2, 3, 4),
        link(3, 4, 6),
        link(4, 1, 7),
        link(1, 3, 8),
    ]
}
