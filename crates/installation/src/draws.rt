//! Draw, made if the installation allows it.
ghost use Rattle.std.specs.Prelude.{◌≡◌, length};
ghost use Rattle.installation.specs.Memory.{SameTables, SameBook};
ghost use Rattle.installation.specs.Hands.{may_draw, hand, Makes};

use crate::call::{Batch, Call};
use crate::memory::Memory;
use crate::seat::State;
use crate::slots::part_of;
use fabrics::Fabric;
use planner::Book;
use promise::Answer;
use weights::Weight;

impl<'a, W: Weight> Memory<'a, W> {
    /// Whether a batch is drawn: the network is open, the changes are there, and so is the slot, and no player has its plan.
    fn may_draw(&self, batch: Batch, state: &State, book: &Book<W>) -> bool
        ensures { result ≡ may_draw batch (length self.now.changes.now) (length self.now.plans.now) book.now.refusal state.now.seat state.now.slot }
    {
        book.refusal().is_none()
            && batch.from <= batch.to
            && batch.to <= self.changes.len()
            && batch.slot < self.plans.len()
            && (state.seat.is_free() || batch.slot != state.slot)
    }

    /// Draws a plan of some of the changes into a slot.
    pub(crate) fn draw<F: Fabric>(
        &mut self,
        batch: Batch,
        state: &State,
        book: &mut Book<W>,
    ) -> Answer
        ensures made { (f : F) → Makes W.Ordered.side F.Fabric.carrying (hand book.old self.old state.now f) (Call.Draw batch) result (hand book.new self.new state.now f) }
        ensures lent { SameBook book.old book.new }
        ensures held { SameTables self.old self.new }
    {
        if !self.may_draw(batch, state, book) {
            return Answer::NotMade;
        }
        let Batch { from, to, slot } = batch;
        let (a, b) = part_of(slot, self.plans.len(), self.start.len());
        let (c, d) = part_of(slot, self.plans.len(), self.entries.len());
        match book.draw(
            &self.changes[from..to],
            &mut self.start[a..b],
            &mut self.entries[c..d],
            self.work,
        ) {
            Ok(counts) => {
                self.plans[slot] = Some(counts);
                Answer::Drew(counts)
            }
            Err(fault) => Answer::NotDrawn(fault),
        }
    }
}
