//! A block of changes: its graph is thinned for them, its first half, rounded up, is made on what is left, and then the
//! rest, at the places that the first half leaves.
ghost use Rattle.std.specs.Prelude.{◌≡◌, ℕ, ◌+◌, ◌*◌, ◌^◌, ◌<◌, ◌≤◌, length, take};
ghost use Rattle.graphs.specs.Thin.{Block};
ghost use Rattle.plans.specs.Places.{moved_by};
ghost use Rattle.plans.specs.Plan.{entries};
ghost use Rattle.plans.specs.Work.{thinned_for, block_work};
ghost use Rattle.block_records.specs.Words.{links_in, moves_in, entries_in};
ghost use Rattle.blocks.specs.Rooms.{Scratch, Room};
ghost use Rattle.blocks.specs.Block.{graph_of, Fits};
ghost use Rattle.blocks.specs.Telling.{Told};

use crate::tables::{Graph, Tables};
use block_records::Move;
use leaves::{Tally, Thinned};
use thinning::{fill_at, thin};

/// Copies a block's links and thins them for its changes; says how many nodes and links are left.
fn prepare(
    graph: Graph,
    moves: &[[u32; 2]],
    places: &[u32],
    own: &mut [[u32; 3]],
    spare: &mut [[u32; 3]],
    tables: &mut Tables,
) -> (u32, usize)
    requires fits { Fits graph.nodes (length places.now) (links_in graph.links.now) (moves_in moves.now) }
    requires room { (length own.old ≡ length graph.links.now) × (2 * length graph.links.now ≤ length spare.old) }
    requires scratch { Scratch graph.nodes (length places.now) tables.old }
    ensures scratch { (n : ℕ) → Scratch n (length places.now) tables.old → Scratch n (length places.now) tables.new }
    ensures within { result.1 ≤ length own.old }
    ensures thinned { ◌≡◌ {A = Block} (record { nodes = result.0; links = take result.1 (links_in own.new) }) (thinned_for places.now (moves_in moves.now) (graph_of graph.entry)) }
{
    let (others, spare) = spare.split_at_mut(graph.links.len());
    let n = graph.nodes as usize + 1;
    let marks = &mut *tables.marks;
    let chosen = &mut *tables.chosen;
    let parent = &mut tables.parent[..n];
    let name = &mut tables.name[..n];
    own.copy_from_slice(graph.links);
    fill_at(marks, moves, 1);
    let left = thin(own, places, marks, chosen, others, spare, parent, name);
    fill_at(marks, moves, 0);
    left
}

/// Makes the changes of a block and writes what each exchanges; adds the links that the block and its parts receive to the
/// count.
pub(crate) fn block(
    graph: Graph,
    moves: &[[u32; 2]],
    places: &mut [u32],
    out: &mut [[u32; 2]],
    work: &mut [[u32; 3]],
    tables: &mut Tables,
    tally: Tally,
) -> Tally
    requires fits { Fits graph.nodes (length places.old) (links_in graph.links.now) (moves_in moves.now) }
    requires room { Room (length graph.links.now) (length moves.now) (length out.old) (length work.old) }
    requires scratch { Scratch graph.nodes (length places.old) tables.old }
    requires count { (tally.work + block_work (length (moves_in moves.now)) places.old (graph_of graph) (moves_in moves.now) < 2 ^ 64) × (tally.changes + length moves.now < 2 ^ 64) }
    ensures scratch { (n : ℕ) → Scratch n (length places.old) tables.old → Scratch n (length places.old) tables.new }
    ensures places { places.new ≡ moved_by places.old (moves_in moves.now) }
    ensures entries { entries_in out.new ≡ entries places.old (links_in graph.entry.links.now) (moves_in moves.now) }
    ensures told { Told tally result (block_work (length (moves_in moves.now)) places.old (graph_of graph.entry) (moves_in moves.now)) places.old (links_in graph.entry.links.now) (moves_in moves.now) }
{
    let (own, rest) = work.split_at_mut(graph.links.len());
    let (nodes, r) = prepare(graph, moves, places, own, rest, tables);
    let left = Graph {
        nodes,
        links: &own[..r],
    };
    let met = tally.receive(graph.links.len());
    if moves.len() == 1 {
        let change = Move::from(moves[0]);
        let thinned = Thinned { links: left.links };
        let (goes, comes) = thinned.leaf(places, change);
        out[0] = [goes, comes];
        return met.tell(thinned, places);
    }
    let mid = moves.len().div_ceil(2);
    let (first, last) = moves.split_at(mid);
    let (first_out, last_out) = out.split_at_mut(mid);
    let sum = block(left, first, places, first_out, rest, tables, met);
    block(left, last, places, last_out, rest, tables, sum)
}
