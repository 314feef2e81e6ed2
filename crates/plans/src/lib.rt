//! Plans of batches of changes: the least tree of a network at each moment of a batch, what each change exchanges, and the work count. The
//! functions here only carry theorems: each has the statement as its contract, for every weight kind.
#![tactic(auto)]

ghost use Rattle.plans.specs.Theorems.{TreeLeast, AbsentLast, MovesStandings, PlansReplay, BlocksHalve, WorkBounded, SameOrder};
ghost use Rattle.plans.specs.Worked.{Worked};

pub use block_records::Move;
use weights::Ordered;

/// The least tree is a spanning tree of the present links, and up to each link no spanning tree of them has more links.
pub fn tree_least<W: Ordered>()
    ensures { TreeLeast W.Ordered.side }
{}

/// Absent links come last: the present ones join all nodes exactly if the least forest over all links holds no absent one.
pub fn absent_last<W: Ordered>()
    ensures { AbsentLast W.Ordered.side }
{}

/// The changes of a batch are moves of standings.
pub fn moves_standings<W: Ordered>()
    ensures { MovesStandings W }
{}

/// A plan, replayed, gives the least tree at each moment.
pub fn plans_replay<W: Ordered>()
    ensures { PlansReplay W.Ordered.side }
{}

/// A block's entries are those of its halves on the thinned graph, which has at most two links for each change.
pub fn blocks_halve<W: Ordered>()
    ensures { BlocksHalve W.Ordered.side }
{}

/// The work of a batch is bounded.
pub fn work_bounded<W: Ordered>()
    ensures { WorkBounded W.Ordered.side }
{}

/// Same order, same plan: places that stand to each other as the standings do give the same tree, plan, work and first tear.
pub fn same_order<W: Ordered>()
    ensures { SameOrder W.Ordered.side }
{}

/// The four-switch plant and small networks, worked out.
pub fn worked_plants()
    ensures { Worked }
{}
