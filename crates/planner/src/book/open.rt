//! Opening and closing a book.
ghost use Rattle.std.specs.Prelude.{◌≡◌, length, is_ok, is_some, if◌then◌else◌};
ghost use Rattle.plans.specs.Network.{least_tree};
ghost use Rattle.network.specs.Ends.{unless};
ghost use Rattle.planner.specs.Open.{open_fault};
ghost use Rattle.drawing.specs.Tables.{tables_fault, fronted};

use crate::book::Book;
use crate::tables::Tables;
use drawing::Network;
use faults::OpenFault;
use network::{Ends, LinkState, MAX_LINKS, MAX_NODES, check_ends};
use weights::{Ordered, Weight};

impl<'a, 'b, 'c, W: Weight> Book<'a, 'b, 'c, W> {
    /// Opens a network: the book keeps the least tree of its present links, ascending at the front of the tree table. A
    /// refused open leaves every table as it stood, and the book tells the refusal.
    pub fn open(tables: Tables<'a, 'b, 'c, W>, work: &mut [u32]) -> Book<'a, 'b, 'c, W>
        ensures answer { result.refusal ≡ open_fault tables.entry.n tables.entry.ends.now tables.entry.links.now (length tables.entry.tree.now) (length work.old) }
        ensures nodes { result.n ≡ tables.entry.n }
        ensures ends { result.ends.now ≡ tables.entry.ends.now }
        ensures links { result.links.now ≡ tables.entry.links.now }
        ensures tree { result.tree.now ≡ (if is_some result.refusal then tables.entry.tree.now else fronted (least_tree W.Ordered.side tables.entry.ends.now tables.entry.links.now) tables.entry.tree.now) }
        ensures lent { (result.links.ghost_name ≡ tables.entry.links.ghost_name) × (result.tree.ghost_name ≡ tables.entry.tree.ghost_name) }
    {
        let Tables {
            n,
            ends,
            links,
            tree,
        } = tables;
        let refusal = find_tree(n, ends, links, tree, work).err();
        Book {
            n,
            ends,
            links,
            tree,
            refusal,
        }
    }

    /// Why the open was refused, if it was.
    pub fn refusal(&self) -> Option<OpenFault>
        ensures { result ≡ self.now.refusal }
    {
        self.refusal
    }

    /// Gives the tables back.
    pub fn close(self) -> Tables<'a, 'b, 'c, W>
        ensures nodes { result.n ≡ self.entry.n }
        ensures ends { result.ends.now ≡ self.entry.ends.now }
        ensures links { result.links.now ≡ self.entry.links.now }
        ensures tree { result.tree.now ≡ self.entry.tree.now }
        ensures lent { (result.links.ghost_name ≡ self.entry.links.ghost_name) × (result.tree.ghost_name ≡ self.entry.tree.ghost_name) }
    {
        let Book {
            n,
            ends,
            links,
            tree,
            refusal: _,
        } = self;
        Tables {
            n,
            ends,
            links,
            tree,
        }
    }
}

/// Writes the least tree into the tree table, if the network is sound; if not, the tree table stays.
// Number, ends, links and tree one by one: a network in range asks for tables in range, and that is what is checked here.
fn find_tree<W: Ordered>(
    n: u32,
    ends: &[Ends],
    links: &[LinkState<W>],
    tree: &mut [u32],
    work: &mut [u32],
) -> Result<(), OpenFault>
    ensures answer { result ≡ unless (open_fault n ends.now links.now (length tree.old) (length work.old)) tt }
    ensures tree { tree.new ≡ (if is_ok result then fronted (least_tree W.Ordered.side ends.now links.now) tree.old else tree.old) }
{
    check_tables(n, ends, links.len(), tree.len(), work.len())?;
    let network = Network { n, ends, links };
    if !network.least_tree(tree, work) {
        return Err(OpenFault::NotJoined);
    }
    Ok(())
}

/// Refuses counts, tables or ends that are out of range.
fn check_tables(
    n: u32,
    ends: &[Ends],
    links: usize,
    tree: usize,
    work: usize,
) -> Result<(), OpenFault>
    ensures { result ≡ unless (tables_fault n ends.now links tree work) tt }
{
    if n == 0 || n > MAX_NODES {
        return Err(OpenFault::NodeCount);
    }
    if ends.len() > MAX_LINKS {
        return Err(OpenFault::LinkCount);
    }
    if ends.len() != links || tree < n as usize - 1 || work < 64 * (n as usize + ends.len()) {
        return Err(OpenFault::ShortTables);
    }
    check_ends(n, ends)?;
    Ok(())
}
