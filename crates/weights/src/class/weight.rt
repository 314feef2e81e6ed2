//! Class weights: making one, and their order.
ghost use Rattle.std.specs.Prelude.{◌≡◌};
ghost use Rattle.faults.specs.declared.WeightFault.TheVariants.{ClassAbove};
ghost use Rattle.std.specs.Option.{ok_or};
ghost use Rattle.weights.specs.Made.{class_of, class_from};
ghost use Rattle.weights.specs.Order.{classed};
ghost use Rattle.weights.specs.Classes.{passes_on};
ghost use Rattle.std.proofs.Common.{rules, arith};

use crate::class::Class;
use crate::order::{Ordered, Side};
use crate::weight::Weight;
use faults::WeightFault;
use std::fmt;

impl Class {
    pub fn new(class: u32, cost: u32) -> Result<Class, WeightFault>
        ensures { result ≡ ok_or (class_of class cost) ClassAbove }
    {
        if class > 7 {
            return Err(WeightFault::ClassAbove);
        }
        Ok(Class { class, cost })
    }
}

impl Ordered for Class {
    ghost side = { classed };

    ghost level = { first_of (Prim.search rules, Prim.grind (arith, Self.row.coded.inj)) };

    ghost mirrored = { first_of (Prim.search rules, Prim.grind (arith, Self.row.coded.inj)) };

    ghost back = { first_of (Prim.search rules, Prim.grind (arith, Self.row.coded.inj)) };

    ghost passes = { λ u v w. passes_on u.class u.cost v.class v.cost w.class w.cost };

    fn side_of(&self, other: &Class) -> Side {
        self.cmp(other).into()
    }
}

impl Weight for Class {
    const NUMBERS: usize = 2;

    ghost made = { class_from };

    ghost NUMBERS = { 2 };

    ghost counted = { first_of (Prim.search rules, Prim.grind (arith, Self.row.coded.inj)) };

    fn from_numbers(xs: &[u32]) -> Option<Class> {
        match xs {
            [class, cost] => Class::new(*class, *cost).ok(),
            _ => None,
        }
    }
}

impl fmt::Display for Class {
    fn fmt<W: fmt::Write>(&self, f: &mut fmt::Formatter<W>) -> fmt::Result {
        write!(f, "{} {}", self.class, self.cost)
    }
}
