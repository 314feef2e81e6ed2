//! What a batch tells as it goes.
ghost use Rattle.std.specs.Prelude.{◌≡◌, ◌+◌, ◌^◌, ◌<◌, None};
ghost use Rattle.block_records.specs.Words.{links_in};

use crate::single::Thinned;

/// The place of absent links, the work count so far, how many changes were made, and how many of them came before the
/// first after which the least forest holds an absent link, if there was one.
#[derive(Clone, Copy, PartialEq, Eq, Debug)]
pub struct Tally {
    pub absent: u32,
    pub work: u64,
    pub changes: usize,
    pub tear: Option<usize>,
}

impl Tally {
    ghost use Rattle.leaves.specs.Telling.{Spoke};

    /// The tally of a batch before its first change.
    pub fn new(absent: u32) -> Tally
        ensures { result ≡ record { absent = absent; work = 0; changes = 0; tear = None } }
    {
        Tally {
            absent,
            work: 0,
            changes: 0,
            tear: None,
        }
    }

    /// The tally with some links received.
    pub fn receive(self, links: usize) -> Tally
        requires { self.work + links < 2 ^ 64 }
        ensures { result ≡ record { absent = self.absent; work = self.work + links; changes = self.changes; tear = self.tear } }
    {
        Tally {
            work: self.work + links as u64,
            ..self
        }
    }

    /// The tally after one more change.
    pub fn tell(self, thinned: Thinned, places: &[u32]) -> Tally
        ensures { Spoke self result places.now (links_in thinned.entry.links.now) }
    {
        let tear = match self.tear {
            None if thinned.torn(places, self.absent) => Some(self.changes),
            tear => tear,
        };
        Tally {
            changes: self.changes.saturating_add(1),
            tear,
            ..self
        }
    }
}
