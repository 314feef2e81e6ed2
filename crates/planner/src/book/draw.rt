//! Drawing the plan of a batch.
ghost use Rattle.std.specs.Prelude.{◌≡◌, ◌≤◌, false, length, is_some, is_ok, if◌then◌else◌};
ghost use Rattle.plans.specs.Network.{changed_by, least_tree, plan};
ghost use Rattle.drawing.specs.Answer.{unless};
ghost use Rattle.drawing.specs.Tables.{fronted};
ghost use Rattle.planner.specs.Draw.{sizes_fault, batch_fault, draw_fault, counts};
ghost use Rattle.planner.specs.Open.{network_fault};
ghost use Rattle.planner.specs.Truth.{Truth};

use crate::book::Book;
use crate::drawn::Drawn;
use drawing::{Network, copy_entries};
use faults::DrawFault;
use network::{Change, Ends, LinkState};
use places::change_links;
use weights::{Ordered, Weight};

/// The most changes that a batch may have.
const MAX_CHANGES: usize = 65536;

impl<'a, 'b, 'c, W: Weight> Book<'a, 'b, 'c, W> {
    /// Draws the plan of a batch: the least tree before it at the front of the start list, and an entry for each change at
    /// the front of the entry table. Moves the links and the tree to the end of the batch. A refused draw leaves the book
    /// and both tables as they stood.
    pub fn draw(
        &mut self,
        batch: &[Change<W>],
        start: &mut [u32],
        entries: &mut [(u32, u32)],
        work: &mut [u32],
    ) -> Result<Drawn, DrawFault>
        ensures answer { result ≡ unless (draw_fault self.old.refusal self.old.n self.old.ends.now self.old.links.now batch.now (length start.old) (length entries.old) (length work.old)) (counts W.Ordered.side self.old.n self.old.ends.now self.old.links.now batch.now) }
        ensures start { start.new ≡ (if is_ok result then fronted (least_tree W.Ordered.side self.old.ends.now self.old.links.now) start.old else start.old) }
        ensures entries { entries.new ≡ (if is_ok result then fronted (plan W.Ordered.side self.old.ends.now self.old.links.now batch.now) entries.old else entries.old) }
        ensures links { self.new.links.now ≡ (if is_ok result then changed_by self.old.links.now batch.now else self.old.links.now) }
        ensures tree { self.new.tree.now ≡ (if is_ok result then fronted (least_tree W.Ordered.side self.old.ends.now (changed_by self.old.links.now batch.now)) self.old.tree.now else self.old.tree.now) }
        ensures truth { Truth W.Ordered.side self.old.n self.old.ends.now self.old.links.now batch.now result }
        ensures same { (self.new.n ≡ self.old.n) × (self.new.ends.now ≡ self.old.ends.now) × (self.new.refusal ≡ self.old.refusal) }
        ensures lent { (self.new.links.ghost_name ≡ self.old.links.ghost_name) × (self.new.tree.ghost_name ≡ self.old.tree.ghost_name) }
    {
        if let Some(fault) = self.refusal {
            return Err(fault.into());
        }
        let Book {
            n,
            ends,
            links,
            tree,
            refusal: _,
        } = self;
        draw_batch(*n, ends, links, tree, batch, start, entries, work)
    }
}

/// Draws the plan of a batch from a sound network, and moves its links and its tree to the end of the batch. The tables
/// come one by one: a link table that lies behind the book's reference is not lent again as a shared one with a proof.
fn draw_batch<W: Ordered>(
    n: u32,
    ends: &[Ends],
    links: &mut [LinkState<W>],
    tree: &mut [u32],
    batch: &[Change<W>],
    start: &mut [u32],
    entries: &mut [(u32, u32)],
    work: &mut [u32],
) -> Result<Drawn, DrawFault>
    requires { is_some (network_fault n ends.now links.old (length tree.old)) ≡ false }
    ensures answer { result ≡ unless (batch_fault n ends.now links.old batch.now (length start.old) (length entries.old) (length work.old)) (counts W.Ordered.side n ends.now links.old batch.now) }
    ensures start { start.new ≡ (if is_ok result then fronted (least_tree W.Ordered.side ends.now links.old) start.old else start.old) }
    ensures entries { entries.new ≡ (if is_ok result then fronted (plan W.Ordered.side ends.now links.old batch.now) entries.old else entries.old) }
    ensures links { links.new ≡ (if is_ok result then changed_by links.old batch.now else links.old) }
    ensures tree { tree.new ≡ (if is_ok result then fronted (least_tree W.Ordered.side ends.now (changed_by links.old batch.now)) tree.old else tree.old) }
    ensures truth { Truth W.Ordered.side n ends.now links.old batch.now result }
    ensures sound { is_some (network_fault n ends.now links.new (length tree.new)) ≡ false }
{
    check_sizes(
        n,
        ends.len(),
        batch.len(),
        start.len(),
        entries.len(),
        work.len(),
    )?;
    let (out, rest) = work.split_at_mut(batch.len() * 2);
    let (out, _) = out.as_chunks_mut::<2>();
    let network = Network { n, ends, links };
    let count = network.draw_plan(batch, out, rest)?;
    network.least_tree(start, rest);
    copy_entries(out, &mut entries[..batch.len()]);
    change_links(links, batch);
    let network = Network { n, ends, links };
    network.least_tree(tree, rest);
    Ok(Drawn {
        n,
        m: ends.len() as u32,
        k: batch.len() as u32,
        work: count,
    })
}

/// Refuses a batch of k changes of m links among n nodes, if it is too long or a lent table is too short.
fn check_sizes(
    n: u32,
    m: usize,
    k: usize,
    start: usize,
    entries: usize,
    work: usize,
) -> Result<(), DrawFault>
    requires { (1 ≤ n) × (n ≤ 4096) × (m ≤ 16384) }
    ensures { result ≡ unless (sizes_fault n m k start entries work) tt }
{
    if k > MAX_CHANGES {
        return Err(DrawFault::ChangeCount);
    }
    if start < n as usize - 1 || entries < k || work < 64 * (n as usize + m + k) {
        return Err(DrawFault::ShortTables);
    }
    Ok(())
}
