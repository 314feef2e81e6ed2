//! Filling the tables, line by line.
ghost use Rattle.std.specs.Prelude.{◌≡◌, Ok};
ghost use Rattle.std.specs.Result.{result_and};
ghost use Rattle.plant_tables.specs.File.{seen, linked, changed, placed};
ghost use Rattle.plant_tables.specs.Room.{Roomy};

use crate::plant::Tables;
use crate::room::{MAX_CHANGES, MAX_LINKS};
use faults::TextFault;
use network::{Change, Ends, LinkState};
use plant_lines::Item;
use weights::Weight;

impl<W: Weight> Tables<W> {
    /// Adds what one line tells.
    pub fn place(&mut self, item: Item<W>, line: u32) -> Result<(), TextFault>
        requires { Roomy self.old }
        ensures told { result_and result (Ok (seen self.new)) ≡ placed (seen self.old) line item }
        ensures room { Roomy self.new }
    {
        match item {
            Item::Head(_, _) => Err(TextFault::OutOfPlace(line)),
            Item::Link(ends, weight) => self.add_link(ends, weight, line),
            Item::Change(change) => self.add_change(change, line),
        }
    }

    /// Adds a link, all of which come before the changes.
    fn add_link(&mut self, ends: Ends, weight: W, line: u32) -> Result<(), TextFault>
        requires { Roomy self.old }
        ensures told { result_and result (Ok (seen self.new)) ≡ linked (seen self.old) line ends weight }
        ensures room { Roomy self.new }
    {
        if !self.changes.is_empty() {
            return Err(TextFault::OutOfPlace(line));
        }
        if self.links.len() >= MAX_LINKS {
            return Err(TextFault::OverCount(line));
        }
        self.ends.push_reserved(ends);
        self.links.push_reserved(LinkState {
            weight,
            present: true,
        });
        self.link_lines.push_reserved(line);
        Ok(())
    }

    /// Adds a change.
    fn add_change(&mut self, change: Change<W>, line: u32) -> Result<(), TextFault>
        requires { Roomy self.old }
        ensures told { result_and result (Ok (seen self.new)) ≡ changed (seen self.old) line change }
        ensures room { Roomy self.new }
    {
        if self.changes.len() >= MAX_CHANGES {
            return Err(TextFault::OverCount(line));
        }
        self.changes.push_reserved(change);
        self.change_lines.push_reserved(line);
        Ok(())
    }
}
