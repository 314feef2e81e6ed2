//! The cost kind: a number, smaller before.
ghost use Rattle.std.specs.Prelude.{◌≡◌};
ghost use Rattle.weights.specs.Order.{compared};
ghost use Rattle.weights.specs.Made.{cost_from};
ghost use Rattle.std.proofs.Common.{rules};

use crate::order::{Ordered, Side};
use crate::weight::Weight;
use std::fmt;

#[derive(Clone, Copy, PartialEq, Eq, PartialOrd, Ord, Debug)]
pub struct Cost(pub u32);

impl Ordered for Cost {
    ghost side = { λ u v. compared u.0 v.0 };

    ghost level = { Prim.search rules };

    ghost mirrored = { Prim.search rules };

    ghost back = { Prim.search rules };

    ghost passes = { Prim.search rules };

    fn side_of(&self, other: &Cost) -> Side {
        self.cmp(other).into()
    }
}

impl Weight for Cost {
    const NUMBERS: usize = 1;

    ghost made = { cost_from };

    ghost NUMBERS = { 1 };

    ghost counted = { Prim.search rules };

    fn from_numbers(xs: &[u32]) -> Option<Cost> {
        match xs {
            [cost] => Some(Cost(*cost)),
            _ => None,
        }
    }
}

impl fmt::Display for Cost {
    fn fmt<W: fmt::Write>(&self, f: &mut fmt::Formatter<W>) -> fmt::Result {
        write!(f, "{}", self.0)
    }
}
