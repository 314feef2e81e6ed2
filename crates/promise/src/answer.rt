//! What the calls on an installation answer.
use faults::{DrawFault, OpenFault, PlayerFault};
use planner::Drawn;

/// The answer of one of the nine calls.
// A case for each outcome and no Result in a case: the steps, and who reads a log, match on one level.
#[derive(Clone, Copy)]
pub enum Answer {
    /// The call was not made: the installation's state does not allow it.
    NotMade,
    /// Open was granted.
    Opened,
    /// Open was refused.
    NotOpened(OpenFault),
    /// Draw was granted: the counts of the plan and its work count.
    Drew(Drawn),
    /// Draw was refused.
    NotDrawn(DrawFault),
    /// Lay, forward, backward, join or cancel was granted.
    Granted,
    /// Lay, forward, backward, join or cancel was refused.
    Refused(PlayerFault),
    /// Abandon told the leaving and the coming link.
    Abandoned(u32, u32),
    /// Finish told after how many changes the player was steady.
    Finished(u32),
}
