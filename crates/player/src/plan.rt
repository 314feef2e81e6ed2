//! A plan as the player reads it.

ghost use Rattle.std.specs.Prelude.{◌≡◌, Some, None, if◌then◌else◌};
ghost use Rattle.faults.specs.declared.PlayerFault.TheVariants.{OtherPlan};
ghost use Rattle.network.specs.Ends.{unless};
ghost use Rattle.player.specs.Plan.{sheet, unfit};

use faults::PlayerFault;

/// A plan of k changes for n nodes and m links: its start list in the first n - 1 places of `start`, and in the first k
/// of `entries` for each change the link that leaves and the link that comes. 0 stands for none.
// Not an Option: a draw writes its entries as numbers into lent memory.
#[derive(Clone, Copy)]
pub struct Plan<'s, 'e> {
    pub n: u32,
    pub m: u32,
    pub k: u32,
    pub start: &'s [u32],
    pub entries: &'e [(u32, u32)],
}

/// The counts of a plan: nodes, links and changes.
// Plan keeps the three as fields of its own: a nested struct is no plainer where a plan is written out.
#[derive(Clone, Copy, PartialEq, Eq)]
pub(crate) struct Counts {
    pub n: u32,
    pub m: u32,
    pub k: u32,
}

impl Plan<'_, '_> {
    /// Refuses a plan that has no nodes, or tables that are too short.
    pub(crate) fn check(&self) -> Result<(), PlayerFault>
        ensures { result ≡ unless (if unfit (sheet self.now) then Some OtherPlan else None) tt }
    {
        if self.n == 0
            || self.start.len() < (self.n - 1) as usize
            || self.entries.len() < self.k as usize
        {
            return Err(PlayerFault::OtherPlan);
        }
        Ok(())
    }

    /// The plan's counts.
    pub(crate) fn counts(&self) -> Counts
        ensures nodes { result.n ≡ self.now.n }
        ensures links { result.m ≡ self.now.m }
        ensures changes { result.k ≡ self.now.k }
    {
        Counts {
            n: self.n,
            m: self.m,
            k: self.k,
        }
    }
}
