//! How a link stands in its network.
ghost use Rattle.std.specs.Prelude.{◌≡◌};
ghost use Rattle.network.specs.Standings.{standing_of};

use crate::types::LinkState;
use weights::{Ordered, Standing};

/// A present link stands at its weight.
impl<W: Ordered> From<LinkState<W>> for Standing<W> {
    ghost from_gives = { λ link standing. standing ≡ standing_of link };

    fn from(link: LinkState<W>) -> Standing<W> {
        if link.present {
            Standing::At(link.weight)
        } else {
            Standing::Absent
        }
    }
}
