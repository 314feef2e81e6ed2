//! The rate kind: a number, larger before.
ghost use Rattle.std.specs.Prelude.{◌≡◌};
ghost use Rattle.own_parts.specs.Rates.{faster, rate_from};
ghost use Rattle.std.proofs.Common.{rules};

use weights::{Ordered, Side, Weight};

#[derive(Clone, Copy, PartialEq, Eq, PartialOrd, Ord, Debug)]
pub struct Rate(pub u32);

impl Ordered for Rate {
    ghost side = { faster };

    ghost level = { Prim.search rules };

    ghost mirrored = { Prim.search rules };

    ghost back = { Prim.search rules };

    ghost passes = { Prim.search rules };

    fn side_of(&self, other: &Rate) -> Side {
        other.cmp(self).into()
    }
}

impl Weight for Rate {
    const NUMBERS: usize = 1;

    ghost made = { rate_from };

    ghost NUMBERS = { 1 };

    ghost counted = { Prim.search rules };

    fn from_numbers(xs: &[u32]) -> Option<Rate> {
        match xs {
            [rate] => Some(Rate(*rate)),
            _ => None,
        }
    }
}
