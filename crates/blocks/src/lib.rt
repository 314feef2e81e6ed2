//! What each change of a batch exchanges in the least forest, by place numbers and over lent tables: a recursion over blocks
//! of changes, each with its graph thinned for them.
#![tactic(auto)]

ghost use Rattle.std.specs.Prelude.{◌≡◌, ℕ, ◌+◌, ◌-◌, ◌*◌, ◌^◌, ◌<◌, ◌≤◌, length};
ghost use Rattle.plans.specs.Places.{moved_by};
ghost use Rattle.plans.specs.Plan.{entries};
ghost use Rattle.block_records.specs.Words.{links_in, moves_in, entries_in};
ghost use Rattle.blocks.specs.Rooms.{Scratch};
ghost use Rattle.blocks.specs.Block.{graph_of, Sound, total};
ghost use Rattle.blocks.specs.Telling.{Tear};

mod block;
mod tables;

use block::block;
use leaves::Tally;
pub use tables::Graph;
use tables::Tables;

/// Makes the changes of a batch in top blocks of as many changes as there are links, and writes what each exchanges.
fn top_blocks(
    graph: Graph,
    moves: &[[u32; 2]],
    places: &mut [u32],
    out: &mut [[u32; 2]],
    work: &mut [[u32; 3]],
    tables: &mut Tables,
    absent: u32,
) -> Tally
    requires sound { Sound graph.nodes (length places.old) (links_in graph.links.now) (moves_in moves.now) }
    requires room { (length out.old ≡ length moves.now) × (length graph.links.now ≡ length places.old) × (7 * length places.old ≤ length work.old) }
    requires scratch { Scratch graph.nodes (length places.old) tables.old }
    requires count { (total places.old (graph_of graph) (moves_in moves.now) < 2 ^ 64) × (length moves.now < 2 ^ 64) }
    ensures places { places.new ≡ moved_by places.old (moves_in moves.now) }
    ensures entries { entries_in out.new ≡ entries places.old (links_in graph.entry.links.now) (moves_in moves.now) }
    ensures count { result.work ≡ total places.old (graph_of graph.entry) (moves_in moves.now) }
    ensures tear { Tear absent places.old (links_in graph.entry.links.now) (moves_in moves.now) result }
    ensures changes { result.changes ≡ length moves.now }
{
    let mut tally = Tally::new(absent);
    let mut i = 0;
    // By index: an iterator over parts of `out` says nothing of what is written there.
    while i < moves.len() {
        let j = moves.len().min(i + graph.links.len());
        tally = block(
            graph,
            &moves[i..j],
            places,
            &mut out[i..j],
            work,
            tables,
            tally,
        );
        i = j;
    }
    tally
}

/// Makes the changes of a batch, moves the places on and writes what each change exchanges, as entries. Answers the work
/// count and, if the forest over all links holds no link at the absent place or later before the batch, the first change
/// after which it does.
///
/// The work area needs 23 words for each link, 2 for each node, and 4 more.
pub fn batch(
    graph: Graph,
    moves: &[[u32; 2]],
    places: &mut [u32],
    out: &mut [[u32; 2]],
    work: &mut [u32],
    absent: u32,
) -> Tally
    requires sound { Sound graph.nodes (length places.old) (links_in graph.links.now) (moves_in moves.now) }
    requires size { (graph.nodes < 2 ^ 32 - 1) × (length places.old ≤ 2 ^ 20) × (length moves.now ≤ 2 ^ 32) }
    requires room { (length out.old ≡ length moves.now) × (length graph.links.now ≡ length places.old) × (23 * length places.old + 2 * graph.nodes + 4 ≤ length work.old) }
    ensures places { places.new ≡ moved_by places.old (moves_in moves.now) }
    ensures entries { entries_in out.new ≡ entries places.old (links_in graph.entry.links.now) (moves_in moves.now) }
    ensures count { result.work ≡ total places.old (graph_of graph.entry) (moves_in moves.now) }
    ensures tear { Tear absent places.old (links_in graph.entry.links.now) (moves_in moves.now) result }
    ensures changes { result.changes ≡ length moves.now }
{
    let m = places.len();
    let n = graph.nodes as usize;
    let (marks, rest) = work.split_at_mut(m + 1);
    let (chosen, rest) = rest.split_at_mut(m + 1);
    let (parent, rest) = rest.split_at_mut(n + 1);
    let (name, rest) = rest.split_at_mut(n + 1);
    marks.fill(0);
    chosen.fill(0);
    let mut tables = Tables {
        marks,
        chosen,
        parent,
        name,
    };
    let (copies, _) = rest.as_chunks_mut();
    top_blocks(graph, moves, places, out, copies, &mut tables, absent)
}
