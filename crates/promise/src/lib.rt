//! The promise over every sequence of the nine calls on one installation: what an installation is, what each call does to it,
//! and what holds after any calls. The steps are made of the definitions that the calls' own contracts cite.
#![tactic(auto)]

ghost use Rattle.promise.specs.Promise.{NeverBroken};
ghost use Rattle.promise.specs.Undo.{ChangesUndone};

mod answer;

pub use answer::Answer;
use fabrics::Fabric;
use weights::Ordered;

/// Its contract is the promise, for every weight kind and every fabric.
pub fn promise_kept<W: Ordered, F: Fabric>()
    ensures { NeverBroken W.Ordered.side F.Fabric.carrying }
{}

/// Its contract is a theorem: what is made of a change is exactly its exchange of two links, and it can be taken back.
pub fn changes_undone()
    ensures { ChangesUndone }
{}
