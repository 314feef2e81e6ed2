//! Cases whose answer is known beforehand: both implementations are compared with it.
use crate::failure::Failure;
use crate::group::Group;
use crate::loan::Kind;
use crate::simple::forecast::{Answer, Case};
use crate::tally::Finding;

/// A plan that was worked out by hand.
#[derive(Drop)]
pub struct Known<'a> {
    pub start: &'a [u32],
    pub entries: &'a [(u32, u32)],
    pub work: u64,
}

impl Group {
    /// A case that is granted, with this plan.
    pub fn plan_is<W: Kind>(&mut self, case: &Case, known: Known<'_>) -> Result<(), Failure> {
        let Ok(plan) = self.compare::<W>(case)? else {
            self.tally.expect(false, Finding::Known);
            return Ok(());
        };
        if let Some(first) = plan.trees.first() {
            let start = first.numbers(self.heap)?;
            self.tally
                .expect(start.as_slice() == known.start, Finding::Known);
        }
        self.tally
            .expect(plan.entries.as_slice() == known.entries, Finding::Known);
        self.tally.expect(plan.work == known.work, Finding::Known);
        Ok(())
    }

    /// A case that is granted, or refused with this refusal.
    pub fn answer_is<W: Kind>(&mut self, case: &Case, wanted: Answer<()>) -> Result<(), Failure> {
        let answer = self.compare::<W>(case)?.map(|_| ());
        self.tally.expect(answer == wanted, Finding::Known);
        Ok(())
    }
}
