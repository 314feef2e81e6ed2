//! A block of one change: its thinned graph has at most two links, so what the change exchanges is told by one comparison
//! before it and one after.
ghost use Rattle.std.specs.Prelude.{◌≡◌, ◌≤◌, length};
ghost use Rattle.std.specs.List.{list_any};
ghost use Rattle.block_records.specs.Words.{link_of, links_in};
ghost use Rattle.plans.specs.Places.{moved};
ghost use Rattle.plans.specs.Plan.{tree_at, entry};
ghost use Rattle.plans.specs.Tears.{torn_at};
ghost use Rattle.thinning.specs.Marks.{Ascends};
ghost use Rattle.leaves.specs.Leaf.{crossing, leader, winner, late_link, Ascends-prop};

use block_records::{Link, Move};
use forests::{earlier, place_of};

/// Whether both links are between the same two nodes.
fn crosses(e: Link, f: Link) -> bool
    ensures { result ≡ crossing e.a.0 e.b.0 f.a.0 f.b.0 }
{
    e.a != e.b && ((f.a == e.a && f.b == e.b) || (f.a == e.b && f.b == e.a))
}

/// Whether a link is between different nodes and at the absent place or later.
fn is_late(e: Link, places: &[u32], absent: u32) -> bool
    ensures { result ≡ late_link absent places.now e }
{
    e.a != e.b && absent <= place_of(places, e.number)
}

/// Whether one of the links of a table is.
fn any_late(links: &[[u32; 3]], places: &[u32], absent: u32) -> bool
    ensures { result ≡ list_any (λ words. late_link absent places.now (link_of words)) links.now }
{
    links
        .iter()
        .any(|words| is_late(Link::from(*words), places, absent))
}

/// A graph thinned for one change: at most two links, by number.
#[derive(Clone, Copy)]
pub struct Thinned<'a> {
    pub links: &'a [[u32; 3]],
    ghost few: { length links.now ≤ 2 },
    ghost ascends: { Ascends (links_in links.now) } by { Ascends-prop (links_in links.now) },
}

impl Thinned<'_> {
    /// Of two links between the same nodes, the one that is first in order.
    fn first(self, places: &[u32]) -> Option<Link>
        ensures { result ≡ leader places.now (links_in self.entry.links.now) }
    {
        let [e, f] = self.links else {
            return None;
        };
        let (e, f) = (Link::from(*e), Link::from(*f));
        if !crosses(e, f) {
            return None;
        }
        if earlier(places, e.number, f.number) {
            Some(e)
        } else {
            Some(f)
        }
    }

    /// The number of that link, or 0 where there is none: an entry is a pair of link numbers, in which 0 stands for no link.
    #[tactic(auto, using(crate::proofs::Leaves::winner_none, crate::proofs::Leaves::winner_some))]
    fn winner(self, places: &[u32]) -> u32
        ensures { result ≡ winner places.now (links_in self.entry.links.now) }
    {
        self.first(places).map_or(0, |e| e.number)
    }

    /// Makes a change, and answers the numbers of the link that leaves and the link that comes.
    pub fn leaf(self, places: &mut [u32], change: Move<u32>) -> (u32, u32)
        requires known { (1 ≤ change.link) × (change.link ≤ length places.old) }
        ensures places { places.new ≡ moved places.old change }
        ensures entry { result ≡ entry (tree_at places.old (links_in self.entry.links.now)) (tree_at (moved places.old change) (links_in self.entry.links.now)) }
    {
        let was = self.winner(places);
        places[change.link as usize - 1] = change.to;
        let is = self.winner(places);
        if was == is { (0, 0) } else { (was, is) }
    }

    /// Whether the least forest holds a link at the absent place or later.
    pub(crate) fn torn(self, places: &[u32], absent: u32) -> bool
        ensures { result ≡ torn_at absent places.now (links_in self.entry.links.now) }
    {
        match self.first(places) {
            Some(e) => is_late(e, places, absent),
            None => any_late(self.links, places, absent),
        }
    }
}
