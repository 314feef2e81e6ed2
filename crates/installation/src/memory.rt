//! The memory that an installation works in.
ghost use Rattle.std.specs.Prelude.{◌≡◌};
ghost use Rattle.std.specs.Option.{option_map};
ghost use Rattle.player.specs.Plan.{sheet};
ghost use Rattle.installation.specs.Memory.{sheet_at};

use crate::slots::part_of;
use network::Change;
use planner::Drawn;
use player::Plan;
use weights::Weight;

/// What a caller lends: slots for drawn plans; the changes that batches are cut from; the start lists and the entries, each
/// cut into as many equal parts as there are slots; and a work area. The slots hold the counts of the plans drawn so far.
#[derive(Drop)]
pub struct Memory<'a, W: Weight> {
    pub plans: &'a mut [Option<Drawn>],
    pub changes: &'a [Change<W>],
    pub start: &'a mut [u32],
    pub entries: &'a mut [(u32, u32)],
    pub work: &'a mut [u32],
}

impl<'a, W: Weight> Memory<'a, W> {
    /// The plan in a slot, if there is such a slot and a plan in it.
    pub(crate) fn plan_at(&self, slot: usize) -> Option<Plan<'_, '_>>
        ensures { option_map sheet result ≡ sheet_at self.now slot }
    {
        let Drawn { n, m, k, work: _ } = self.plans.get(slot).copied().flatten()?;
        let (a, b) = part_of(slot, self.plans.len(), self.start.len());
        let (c, d) = part_of(slot, self.plans.len(), self.entries.len());
        Some(Plan {
            n,
            m,
            k,
            start: &self.start[a..b],
            entries: &self.entries[c..d],
        })
    }
}
