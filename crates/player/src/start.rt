//! A start list. In an ascending one, as drawn plans have it, no link is searched for, and none is listed twice.

ghost use Rattle.std.specs.Prelude.{◌≡◌, true, []};
ghost use Rattle.player.specs.Start.{mem, list_fault, Ascends, Parts};
ghost use Rattle.network.specs.Ends.{unless};

use faults::{FabricFault, PlayerFault};

/// A list of links, which is only marked as ascending if it ascends.
#[derive(Clone, Copy)]
pub(crate) struct StartList<'s> {
    pub links: &'s [u32],
    ascending: bool,
    ghost order: { ascending ≡ true → Ascends links.now },
}

impl<'s> StartList<'s> {
    /// Takes a list, and marks whether it ascends.
    pub fn new(links: &'s [u32]) -> StartList<'s>
        ensures { result.links.now ≡ links.now }
    {
        StartList {
            links,
            ascending: links.is_sorted_by(|x, y| x < y),
        }
    }

    /// Whether a link is in the list. Where the list ascends, and `at` of its items are below the link, one look tells.
    pub fn lists_at(&self, at: usize, link: u32) -> bool
        requires { self.now.ascending ≡ true → Parts self.now.links.now at link }
        ensures { result ≡ mem link self.now.links.now }
    {
        if self.ascending {
            at < self.links.len() && self.links[at] == link
        } else {
            self.links.contains(&link)
        }
    }

    /// Refuses the list at the first link that a blank fabric of m links would not enable.
    pub fn check(&self, m: u32) -> Result<(), PlayerFault>
        ensures { result ≡ unless (list_fault m [] self.now.links.now) tt }
    {
        for (i, link) in self.links.iter().enumerate() {
            if *link == 0 || *link > m {
                return Err(FabricFault::LinkOutside(*link).into());
            }
            if !self.ascending && self.links[..i].contains(link) {
                return Err(FabricFault::CarriesAlready(*link).into());
            }
        }
        Ok(())
    }
}
