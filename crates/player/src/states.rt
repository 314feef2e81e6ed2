//! The states of a player: plain numbers that are moved from call to call, and that no program may let go.

ghost use Rattle.std.specs.Prelude.{◌≤◌};

use crate::plan::Counts;
use faults::PlayerFault;

/// A player at rest after the first t changes of a plan with these counts.
pub struct Steady {
    pub(super) counts: Counts,
    pub(super) t: u32,
    ghost within: { t ≤ counts.k },
}

/// A player on its way from moment t to the next or the one before, `to`: the leaving link is off and the coming one not
/// yet on.
pub struct Between {
    pub(super) counts: Counts,
    pub(super) t: u32,
    pub(super) to: u32,
    pub(super) leaving: u32,
    pub(super) coming: u32,
    ghost within: { t ≤ counts.k },
    ghost ahead: { to ≤ counts.k },
}

/// A player handed back by a refused call, with the fault.
// The player goes into the Err: so a refusal is passed on by a match, since `?` would let the player go.
pub struct Kept<P> {
    pub player: P,
    pub fault: PlayerFault,
}
