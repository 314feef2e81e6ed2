//! The moves of a laid player.

ghost use Rattle.std.specs.Prelude.{◌≡◌, ◌-◌, ◌≤◌, Some, None, OnErr, if◌then◌else◌};
ghost use Rattle.faults.specs.declared.PlayerFault.TheVariants.{OtherPlan};
ghost use Rattle.player.specs.Plan.{sheet, entry};
ghost use Rattle.player.specs.States.{rest, way, unlike};
ghost use Rattle.player.specs.Moves.{Leaves, Comes, next_fault, last_fault, turned, SetsOut, Settles, Forwards, Backwards, Joins, Cancels};
ghost use Rattle.network.specs.Ends.{unless};

use crate::plan::Plan;
use crate::states::{Between, Kept, Steady};
use fabrics::Fabric;
use faults::{FabricFault, PlayerFault};

/// Looks at the leaving link and the coming link, and disables the leaving one; 0 is skipped.
fn part<F: Fabric>(fabric: &mut F, leaving: u32, coming: u32) -> Result<(), PlayerFault>
    ensures answer { Leaves leaving coming (F.Fabric.carrying fabric.old) result (F.Fabric.carrying fabric.new) }
    ensures kept { OnErr result (fabric.new ≡ fabric.old) }
    ensures same { F.Fabric.shape fabric.new ≡ F.Fabric.shape fabric.old }
{
    if leaving != 0 && !fabric.look(leaving)? {
        return Err(FabricFault::CarriesNot(leaving).into());
    }
    if coming != 0 && fabric.look(coming)? {
        return Err(FabricFault::CarriesAlready(coming).into());
    }
    if leaving != 0 {
        fabric.disable(leaving)?;
    }
    Ok(())
}

/// Enables a link that comes; 0 is skipped.
fn bring<F: Fabric>(fabric: &mut F, link: u32) -> Result<(), PlayerFault>
    ensures answer { Comes link (F.Fabric.carrying fabric.old) result (F.Fabric.carrying fabric.new) }
    ensures kept { OnErr result (fabric.new ≡ fabric.old) }
    ensures same { F.Fabric.shape fabric.new ≡ F.Fabric.shape fabric.old }
{
    if link != 0 {
        fabric.enable(link)?;
    }
    Ok(())
}

// A refusal is passed on by a match: `?` would let the player go, and a closure would take it. What a call leaves (`kept`,
// `same`) are clauses of each call, so that a caller cites them by the call.
impl Steady {
    /// Refuses a plan that is not like the one that the player was laid from.
    fn check(&self, plan: &Plan) -> Result<(), PlayerFault>
        ensures { result ≡ unless (if unlike (rest self.now) (sheet plan.now) then Some OtherPlan else None) tt }
    {
        plan.check()?;
        if plan.counts() != self.counts {
            return Err(PlayerFault::OtherPlan);
        }
        Ok(())
    }

    /// The leaving and the coming link of the change after this moment.
    fn next_entry(&self, plan: &Plan) -> Result<(u32, u32), PlayerFault>
        ensures { result ≡ unless (next_fault (rest self.now) (sheet plan.now)) (entry (sheet plan.now) self.now.t) }
    {
        self.check(plan)?;
        if self.t >= self.counts.k {
            return Err(PlayerFault::NoEntry(self.t));
        }
        Ok(plan.entries[self.t as usize])
    }

    /// The leaving and the coming link of the change before this moment, taken back.
    fn last_entry(&self, plan: &Plan) -> Result<(u32, u32), PlayerFault>
        ensures { result ≡ unless (last_fault (rest self.now) (sheet plan.now)) (turned (entry (sheet plan.now) (self.now.t - 1))) }
    {
        self.check(plan)?;
        if self.t == 0 {
            return Err(PlayerFault::NoEntry(0));
        }
        let (coming, leaving) = plan.entries[self.t as usize - 1];
        Ok((leaving, coming))
    }

    /// Disables the leaving link of an entry, and is between, on the way to a moment.
    // Inlined, as `settle` is: as calls of their own the two steps cost a move on a port table half as much again.
    #[inline(always)]
    fn set_out<F: Fabric>(
        self,
        fabric: &mut F,
        to: u32,
        entry: (u32, u32),
    ) -> Result<Between, Kept<Steady>>
        requires { to ≤ self.counts.k }
        ensures answer { SetsOut (rest self) to entry (F.Fabric.carrying fabric.old) result (F.Fabric.carrying fabric.new) }
        ensures kept { OnErr result (fabric.new ≡ fabric.old) }
        ensures same { F.Fabric.shape fabric.new ≡ F.Fabric.shape fabric.old }
    {
        let (leaving, coming) = entry;
        match part(fabric, leaving, coming) {
            Err(fault) => Err(Kept {
                player: self,
                fault,
            }),
            Ok(()) => {
                let Steady { counts, t } = self;
                Ok(Between {
                    counts,
                    t,
                    to,
                    leaving,
                    coming,
                })
            }
        }
    }

    /// Takes the next entry: disables its leaving link, and is between.
    pub fn forward<F: Fabric>(self, plan: &Plan, fabric: &mut F) -> Result<Between, Kept<Steady>>
        ensures answer { Forwards (rest self) (sheet plan.now) (F.Fabric.carrying fabric.old) result (F.Fabric.carrying fabric.new) }
        ensures kept { OnErr result (fabric.new ≡ fabric.old) }
        ensures same { F.Fabric.shape fabric.new ≡ F.Fabric.shape fabric.old }
    {
        match self.next_entry(plan) {
            Err(fault) => Err(Kept {
                player: self,
                fault,
            }),
            Ok(entry) => {
                let to = self.t + 1;
                self.set_out(fabric, to, entry)
            }
        }
    }

    /// Takes the entry just made back: disables its coming link, and is between.
    pub fn backward<F: Fabric>(self, plan: &Plan, fabric: &mut F) -> Result<Between, Kept<Steady>>
        ensures answer { Backwards (rest self) (sheet plan.now) (F.Fabric.carrying fabric.old) result (F.Fabric.carrying fabric.new) }
        ensures kept { OnErr result (fabric.new ≡ fabric.old) }
        ensures same { F.Fabric.shape fabric.new ≡ F.Fabric.shape fabric.old }
    {
        match self.last_entry(plan) {
            Err(fault) => Err(Kept {
                player: self,
                fault,
            }),
            Ok(entry) => {
                let to = self.t - 1;
                self.set_out(fabric, to, entry)
            }
        }
    }

    /// Ends the player, and tells its moment: after how many changes it was steady.
    pub fn finish(self) -> u32
        ensures { result ≡ self.t }
    {
        let Steady {
            counts: _,
            t: moment,
        } = self;
        moment
    }
}

impl Between {
    /// Enables a link, and is steady at moment t.
    #[inline(always)]
    fn settle<F: Fabric>(self, fabric: &mut F, t: u32, link: u32) -> Result<Steady, Kept<Between>>
        requires { t ≤ self.counts.k }
        ensures answer { Settles (way self) t link (F.Fabric.carrying fabric.old) result (F.Fabric.carrying fabric.new) }
        ensures kept { OnErr result (fabric.new ≡ fabric.old) }
        ensures same { F.Fabric.shape fabric.new ≡ F.Fabric.shape fabric.old }
    {
        match bring(fabric, link) {
            Err(fault) => Err(Kept {
                player: self,
                fault,
            }),
            Ok(()) => {
                let Between {
                    counts,
                    t: _,
                    to: _,
                    leaving: _,
                    coming: _,
                } = self;
                Ok(Steady { counts, t })
            }
        }
    }

    /// Enables the coming link, and is steady at the new moment.
    pub fn join<F: Fabric>(self, fabric: &mut F) -> Result<Steady, Kept<Between>>
        ensures answer { Joins (way self) (F.Fabric.carrying fabric.old) result (F.Fabric.carrying fabric.new) }
        ensures kept { OnErr result (fabric.new ≡ fabric.old) }
        ensures same { F.Fabric.shape fabric.new ≡ F.Fabric.shape fabric.old }
    {
        let (t, link) = (self.to, self.coming);
        self.settle(fabric, t, link)
    }

    /// Enables the leaving link again, and is steady at the old moment.
    pub fn cancel<F: Fabric>(self, fabric: &mut F) -> Result<Steady, Kept<Between>>
        ensures answer { Cancels (way self) (F.Fabric.carrying fabric.old) result (F.Fabric.carrying fabric.new) }
        ensures kept { OnErr result (fabric.new ≡ fabric.old) }
        ensures same { F.Fabric.shape fabric.new ≡ F.Fabric.shape fabric.old }
    {
        let (t, link) = (self.t, self.leaving);
        self.settle(fabric, t, link)
    }

    /// Ends the player, leaves the fabric alone, and tells the leaving and the coming link.
    pub fn abandon(self) -> (u32, u32)
        ensures { result ≡ (self.leaving, self.coming) }
    {
        let Between {
            counts: _,
            t: _,
            to: _,
            leaving,
            coming,
        } = self;
        (leaving, coming)
    }
}
