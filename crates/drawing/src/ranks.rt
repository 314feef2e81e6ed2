//! The order of a network's links as a ranking.
ghost use Rattle.std.specs.Prelude.{suc, length};
ghost use Rattle.plans.specs.Network.{link_before};

use forests::Ranking;
use network::LinkState;
use weights::{Ordered, Side, Standing};

/// The links of a table, index i for link i + 1, by standing and then number.
#[derive(Drop)]
pub struct ByStanding<'a, W: Ordered> {
    pub links: &'a [LinkState<W>],
}

impl<W: Ordered> Ranking for ByStanding<'_, W> {
    ghost count = { λ r. length r.links.now };

    ghost before = { λ r i j. link_before W.Ordered.side r.links.now (suc i) (suc j) };

    fn precedes(&self, i: u32, j: u32) -> bool {
        let u = Standing::from(self.links[i as usize]);
        let v = Standing::from(self.links[j as usize]);
        match u.side_of(&v) {
            Side::Before => true,
            Side::Level => i < j,
            Side::After => false,
        }
    }
}
