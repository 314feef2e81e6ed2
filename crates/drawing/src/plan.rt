//! The plan of a batch, worked out in the work area.
ghost use Rattle.std.specs.Prelude.{◌≡◌, ◌+◌, ◌*◌, ◌≤◌, true, false, ltb, length, if◌then◌else◌, OnOk};
ghost use Rattle.block_records.specs.Words.{moves_in, entries_in};
ghost use Rattle.network.specs.Ends.{or_else};
ghost use Rattle.drawing.specs.Tables.{joined};
ghost use Rattle.plans.specs.Network.{graph_of, parted_at, plan, work_count};
ghost use Rattle.plans.specs.Plan.{entries};
ghost use Rattle.plans.specs.Tears.{torn_at, first_tear};
ghost use Rattle.plans.specs.Work.{work as work_of};
ghost use Rattle.places.specs.Changes.{changes_fault};
ghost use Rattle.drawing.specs.Answer.{parted_fault, unless};
ghost use Rattle.places.specs.Moves.{Known, place_moves};

use crate::sound::Network;
use crate::tree::lay_out;
use block_records::Move;
use blocks::Graph;
use faults::DrawFault;
use network::Change;
use places::{Pool, link_of, place_pool, trace};
use weights::Ordered;

/// Writes the moves of a batch: each change's link and its place after it.
fn list_moves<W: Ordered>(batch: &[Change<W>], targets: &[u32], moves: &mut [[u32; 2]])
    requires { (length targets.now ≡ length batch.now) × (length moves.old ≡ length batch.now) }
    ensures { moves_in moves.new ≡ place_moves batch.now targets.now }
{
    for (i, change) in batch.iter().enumerate() {
        let change = Move {
            link: link_of(change),
            to: targets[i],
        };
        moves[i] = change.into();
    }
}

impl<W: Ordered> Network<'_, '_, W> {
    /// Works a batch out by places: writes the entries, and answers the work count or the change after which the present
    /// links no longer join all nodes.
    // The batch stays a slice with its bound in a clause: a struct for one bound would be made and taken apart in each crate.
    fn run(
        &self,
        batch: &[Change<W>],
        places: &mut [u32],
        targets: &[u32],
        absent: u32,
        out: &mut [[u32; 2]],
        work: &mut [u32],
    ) -> Result<u64, DrawFault>
        requires known { Known (length self.now.ends.now) batch.now }
        requires changes { (length batch.now ≤ 65536) × (length targets.now ≡ length batch.now) × (length places.old ≡ length self.now.ends.now) }
        requires whole { torn_at absent places.old (graph_of self.now.ends.now) ≡ false }
        requires room { (length out.old ≡ length batch.now) × (27 * length self.now.ends.now + 2 * length batch.now + 3 * self.now.n + 5 ≤ length work.old) }
        ensures entries { entries_in out.new ≡ entries places.old (graph_of self.now.ends.now) (place_moves batch.now targets.now) }
        ensures answer { result ≡ unless (parted_fault (if ltb (first_tear absent places.old (graph_of self.now.ends.now) (place_moves batch.now targets.now)) (length batch.now) then 1 + first_tear absent places.old (graph_of self.now.ends.now) (place_moves batch.now targets.now) else 0)) (work_of places.old (record { nodes = self.now.n; links = graph_of self.now.ends.now }) (place_moves batch.now targets.now)) }
    {
        let m = self.ends.len();
        let (order, rest) = work.split_at_mut(m);
        let (names, rest) = rest.split_at_mut(self.n as usize + 1);
        let (table, rest) = rest.split_at_mut(m * 3);
        let (table, _) = table.as_chunks_mut::<3>();
        let (moves, rest) = rest.split_at_mut(batch.len() * 2);
        let (moves, _) = moves.as_chunks_mut::<2>();
        forests::start(order);
        forests::start(names);
        lay_out(self.ends, order, names, table);
        list_moves(batch, targets, moves);
        let graph = Graph {
            nodes: self.n,
            links: table,
        };
        let tally = blocks::batch(graph, moves, places, out, rest, absent);
        match tally.tear {
            Some(i) => Err(DrawFault::Parted(i as u32 + 1)),
            None => Ok(tally.work),
        }
    }

    /// Works out the plan of a batch: writes the entries into words, and answers the work count or the refusal.
    pub fn draw_plan(
        &self,
        batch: &[Change<W>],
        out: &mut [[u32; 2]],
        work: &mut [u32],
    ) -> Result<u64, DrawFault>
        requires joined { joined self.now.n self.now.ends.now self.now.links.now ≡ true }
        requires changes { length batch.now ≤ 65536 }
        requires room { (length out.old ≡ length batch.now) × (32 * length self.now.ends.now + 5 * length batch.now + 3 * self.now.n + 8 ≤ length work.old) }
        ensures answer { result ≡ unless (or_else (changes_fault 1 self.now.links.now batch.now) (parted_fault (parted_at self.now.n self.now.ends.now self.now.links.now batch.now))) (work_count W.Ordered.side self.now.n self.now.ends.now self.now.links.now batch.now) }
        ensures entries { OnOk result (entries_in out.new ≡ plan W.Ordered.side self.now.ends.now self.now.links.now batch.now) }
    {
        let links = self.links;
        let m = links.len();
        let count = m + batch.len() + 1;
        let (sources, rest) = work.split_at_mut(count);
        let (order, rest) = rest.split_at_mut(count);
        let (places, rest) = rest.split_at_mut(count);
        let (held, rest) = rest.split_at_mut(m);
        let (present, rest) = rest.split_at_mut(m);
        trace(links, batch, sources, held, present)?;
        let pool = Pool {
            links,
            batch,
            sources,
        };
        place_pool(&pool, order, places);
        let (own, targets) = places.split_at_mut(m);
        let absent = targets[batch.len()];
        self.run(batch, own, &targets[..batch.len()], absent, out, rest)
    }
}
