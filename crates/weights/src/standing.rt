//! How a link stands in its network.
ghost use Rattle.std.specs.Prelude.{◌≡◌};
ghost use Rattle.weights.specs.Order.{stand};
ghost use Rattle.std.proofs.Common.{rules};

use crate::order::{Ordered, Side};

/// Absent, or present at a weight. Its order comes from the weight's: every absent one is after every present one, and
/// absent ones are level.
// A form that the project keeps: absent or at a weight. Not an Option, of which the library's order puts None first.
#[derive(Clone, Copy)]
pub enum Standing<W> {
    At(W),
    Absent,
}

impl<W: Ordered> Ordered for Standing<W> {
    ghost side = { stand W.Ordered.side };

    ghost level = { Prim.search rules };

    ghost mirrored = { Prim.search rules };

    ghost back = { Prim.search rules };

    ghost passes = { Prim.search rules };

    fn side_of(&self, other: &Standing<W>) -> Side {
        match (self, other) {
            (Standing::At(u), Standing::At(v)) => u.side_of(v),
            (Standing::At(_), Standing::Absent) => Side::Before,
            (Standing::Absent, Standing::At(_)) => Side::After,
            (Standing::Absent, Standing::Absent) => Side::Level,
        }
    }
}
