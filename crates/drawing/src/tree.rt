//! The least tree of the present links.
ghost use Rattle.std.specs.Prelude.{◌≡◌, ℕ, ◌+◌, ◌-◌, ◌*◌, ◌^◌, ◌<◌, ◌≤◌, map, length, take, if◌then◌else◌, slice_index};
ghost use Rattle.forests.specs.Heap.{Indexes};
ghost use Rattle.block_records.specs.Words.{links_in};
ghost use Rattle.graphs.specs.Forest.{Distinct, ordered};
ghost use Rattle.plans.specs.Plan.{numbers};
ghost use Rattle.plans.specs.Network.{link_before, least_forest, least_tree};
ghost use Rattle.drawing.specs.Tables.{fronted, joined};
ghost use Rattle.drawing.specs.Tree.{present_indexes, link_at, EndsUnder};

use crate::ranks::ByStanding;
use crate::sound::Network;
use block_records::{BlockNode, Link};
use network::{Ends, LinkState};
use weights::Ordered;

/// Lists the indexes of the present links, and says how many they are.
fn present_links<W: Ordered>(links: &[LinkState<W>], order: &mut [u32]) -> usize
    requires { (length links.now ≤ length order.old) × (length links.now ≤ 2 ^ 32) }
    ensures within { result ≤ length links.now }
    ensures present { take result order.new ≡ present_indexes 0 links.now }
{
    // By a count: an iterator that writes `order` beside another says nothing of what it wrote.
    let mut p = 0;
    for (i, link) in links.iter().enumerate() {
        if link.present {
            order[p] = i as u32;
            p += 1;
        }
    }
    p
}

/// Writes the links of these indexes out as links of a graph, their ends renamed by a table of names.
pub(crate) fn lay_out(ends: &[Ends], order: &[u32], names: &[u32], out: &mut [[u32; 3]])
    requires room { length out.old ≡ length order.now }
    requires within { Indexes order.now (length ends.now) }
    requires few { length ends.now ≤ 16384 }
    requires named { (x : ℕ) → x < length names.now → slice_index names.now x ≡ x }
    requires ends { EndsUnder (length names.now) ends.now }
    ensures { links_in out.new ≡ map (link_at ends.now) order.now }
{
    for (j, i) in order.iter().enumerate() {
        let pair = ends[*i as usize];
        let link = Link {
            number: *i + 1,
            a: BlockNode(names[pair.a.0 as usize]),
            b: BlockNode(names[pair.b.0 as usize]),
        };
        out[j] = link.into();
    }
}

/// Lists the numbers of some links, ascending.
fn list_numbers(links: &[[u32; 3]], out: &mut [u32])
    requires room { length out.old ≡ length links.now }
    requires apart { Distinct (links_in links.now) }
    ensures { out.new ≡ numbers (links_in links.now) }
{
    for (j, words) in links.iter().enumerate() {
        out[j] = Link::from(*words).number;
    }
    out.sort_unstable();
}

impl<W: Ordered> Network<'_, '_, W> {
    /// Puts the links of these indexes into their order, by standing and then number, and writes them out.
    // order, names and out are three tables of three lengths, cut from the work area, and out alone is read afterwards.
    fn sort_links(&self, order: &mut [u32], names: &mut [u32], out: &mut [[u32; 3]])
        requires room { length out.old ≡ length order.old }
        requires within { Indexes order.old (length self.now.ends.now) }
        requires names { length names.old ≡ self.now.n + 1 }
        requires apart { Distinct (map (link_at self.now.ends.now) order.old) }
        ensures { links_in out.new ≡ ordered (link_before W.Ordered.side self.now.links.now) (map (link_at self.now.ends.now) order.old) }
    {
        forests::sort(&ByStanding { links: self.links }, order);
        forests::start(names);
        lay_out(self.ends, order, names, out);
    }

    /// Works out the least forest of the present links, brings it to the front of a table of links, and says how many
    /// links it has.
    fn least_forest(
        &self,
        order: &mut [u32],
        names: &mut [u32],
        parent: &mut [u32],
        out: &mut [[u32; 3]],
    ) -> usize
        requires room { (length order.old ≡ length self.now.ends.now) × (length self.now.ends.now ≤ length out.old) }
        requires nodes { (length parent.old ≡ length names.old) × (length names.old ≡ self.now.n + 1) }
        ensures within { result ≤ length self.now.ends.now }
        ensures forest { take result (links_in out.new) ≡ least_forest W.Ordered.side self.now.ends.now self.now.links.now }
    {
        let p = present_links(self.links, order);
        self.sort_links(&mut order[..p], names, &mut out[..p]);
        forests::keep(&mut out[..p], parent)
    }

    /// Writes the least tree of the present links, ascending, over the front of the tree table, and says whether they join
    /// all nodes; if not, the tree table stays.
    pub fn least_tree(&self, tree: &mut [u32], work: &mut [u32]) -> bool
        requires tree { self.now.n - 1 ≤ length tree.old }
        requires work { 64 * (self.now.n + length self.now.ends.now) ≤ length work.old }
        ensures joined { result ≡ joined self.now.n self.now.ends.now self.now.links.now }
        ensures tree { tree.new ≡ (if result then fronted (least_tree W.Ordered.side self.now.ends.now self.now.links.now) tree.old else tree.old) }
    {
        let nodes = self.n as usize + 1;
        let (order, rest) = work.split_at_mut(self.ends.len());
        let (names, rest) = rest.split_at_mut(nodes);
        let (parent, rest) = rest.split_at_mut(nodes);
        let (out, _) = rest.as_chunks_mut::<3>();
        let k = self.least_forest(order, names, parent, out);
        if k + 1 != self.n as usize {
            return false;
        }
        list_numbers(&out[..k], &mut tree[..k]);
        true
    }
}
