//! The port table as a fabric: making a blank one, and the four calls.

ghost use Rattle.std.specs.Prelude.{◌≡◌, ◌-◌, ◌*◌, ◌<◌, true, false, length, OnErr, OnOk, slice_index_or, slice_set};
ghost use Rattle.fabrics.specs.Blank.{Begins};
ghost use Rattle.fabrics.specs.Meaning.{Enables, Disables};
ghost use Rattle.network.specs.Ends.{unless};
ghost use Rattle.port_layout.specs.Makes.{table_size, table_fault, Wired};
ghost use Rattle.port_layout.specs.Ports.{Table, TableShape, shape_of, flags, enabled, disabled};

use crate::chains::Chains;
use fabrics::{Fabric, check_turn, place};
use faults::{BlankFault, FabricFault};
use network::{Ends, MAX_LINKS, MAX_NODES, Node, check_ends};

/// A fabric of n nodes and the links with these ends, in lent memory of 2 bytes for each node and 4 for each link.
#[derive(Drop)]
pub struct PortTable<'e, 'a> {
    n: u32,
    ends: &'e [Ends],
    bytes: &'a mut [u8],
    // A refused table is no Err: it holds its memory until it is let go, and as a fabric of no links takes any call.
    refusal: Option<BlankFault>,
    ghost table: { ∥ Table n ends.now bytes.now ∥₁ },
}

/// Refuses memory of `len` bytes that makes no port table of n nodes with these links.
fn check_table(n: u32, ends: &[Ends], len: usize) -> Result<(), BlankFault>
    ensures { result ≡ unless (table_fault n ends.now len) tt }
{
    if n == 0 || n > MAX_NODES {
        return Err(BlankFault::NodeCount);
    }
    if ends.len() > MAX_LINKS {
        return Err(BlankFault::LinkCount);
    }
    if len < 2 * n as usize + 4 * ends.len() {
        return Err(BlankFault::ShortMemory);
    }
    check_ends(n, ends)?;
    Ok(())
}

/// The cell of a node's head.
fn head(node: Node) -> usize
    requires { 0 < node.0 }
    ensures { result ≡ node.0 - 1 }
{
    node.0 as usize - 1
}

impl<'e, 'a> PortTable<'e, 'a> {
    /// Makes a blank port table: its bytes become 0, and longer memory keeps its rest. A refused table has no links,
    /// leaves its memory as it stood, and tells its `refusal`.
    pub fn blank(n: u32, ends: &'e [Ends], bytes: &'a mut [u8]) -> PortTable<'e, 'a>
        ensures refusal { result.refusal ≡ table_fault n ends.now (length bytes.old) }
        ensures wiring { Wired (table_fault n ends.now (length bytes.old)) n ends.now result.n result.ends.now }
        ensures outcome { Begins (table_fault n ends.now (length bytes.old)) (length ends.now) (table_size n (length ends.now)) bytes.old result.bytes.now (flags result.n result.ends.now result.bytes.now) }
        ensures lent { result.bytes.ghost_name ≡ bytes.entry.ghost_name }
    {
        if let Err(fault) = check_table(n, ends, bytes.len()) {
            return PortTable {
                n: 0,
                ends: &[],
                bytes,
                refusal: Some(fault),
            };
        }
        let needed = 2 * n as usize + 4 * ends.len();
        bytes[..needed].fill(0);
        PortTable {
            n,
            ends,
            bytes,
            refusal: None,
        }
    }

    /// Why the making of this table was refused, if it was.
    pub fn refusal(&self) -> Option<BlankFault>
        ensures { result ≡ self.now.refusal }
    {
        self.refusal
    }

    /// A chain for each node, and two records for each link.
    fn chains(&self) -> Chains
        ensures { (result.heads ≡ self.now.n) × (result.records ≡ 2 * length self.now.ends.now) }
    {
        Chains {
            heads: self.n as usize,
            records: 2 * self.ends.len(),
        }
    }

    /// Whether the link at place i carries.
    fn is_on(&self, i: usize) -> bool
        requires { i < length self.now.ends.now }
        ensures { result ≡ slice_index_or (flags self.now.n self.now.ends.now self.now.bytes.now) i false }
    {
        let first = self.ends[i].a;
        self.chains()
            .find(self.bytes, head(first), 2 * i + 1)
            .is_some()
    }

    /// Puts both records of the link at place i, which does not carry, into their chains.
    // Not one function with unchain_link: the step alone differs, and each step has clauses of its own.
    fn chain_link(&mut self, i: usize)
        requires within { i < length self.old.ends.now }
        requires off { slice_index_or (flags self.old.n self.old.ends.now self.old.bytes.now) i false ≡ false }
        ensures memory { self.new.bytes.now ≡ enabled self.old.n self.old.ends.now self.old.bytes.now i }
        ensures carrying { flags self.new.n self.new.ends.now self.new.bytes.now ≡ slice_set (flags self.old.n self.old.ends.now self.old.bytes.now) i true }
        ensures same { shape_of self.new.n self.new.ends.now self.new.bytes.ghost_name ≡ shape_of self.old.n self.old.ends.now self.old.bytes.ghost_name }
    {
        let chains = self.chains();
        let PortTable { ends, bytes, .. } = self;
        let link = ends[i];
        chains.push(bytes, head(link.a), 2 * i + 1);
        chains.push(bytes, head(link.b), 2 * i + 2);
    }

    /// Takes both records of the link at place i, which carries, out of their chains.
    fn unchain_link(&mut self, i: usize)
        requires within { i < length self.old.ends.now }
        requires on { slice_index_or (flags self.old.n self.old.ends.now self.old.bytes.now) i false ≡ true }
        ensures memory { self.new.bytes.now ≡ disabled self.old.n self.old.ends.now self.old.bytes.now i }
        ensures carrying { flags self.new.n self.new.ends.now self.new.bytes.now ≡ slice_set (flags self.old.n self.old.ends.now self.old.bytes.now) i false }
        ensures same { shape_of self.new.n self.new.ends.now self.new.bytes.ghost_name ≡ shape_of self.old.n self.old.ends.now self.old.bytes.ghost_name }
    {
        let chains = self.chains();
        let PortTable { ends, bytes, .. } = self;
        let link = ends[i];
        chains.take_out(bytes, head(link.a), 2 * i + 1);
        chains.take_out(bytes, head(link.b), 2 * i + 2);
    }
}

impl Fabric for PortTable<'_, '_> {
    ghost carrying = { λ s. flags s.n s.ends.now s.bytes.now };

    ghost Shape = { TableShape };

    ghost shape = { λ s. shape_of s.n s.ends.now s.bytes.ghost_name };

    #[tactic(auto, using(port_layout::proofs::Tables::length_flags))]
    fn size(&self) -> u32 {
        self.ends.len() as u32
    }

    #[tactic(auto, using(port_layout::proofs::Tables::length_flags))]
    fn look(&self, link: u32) -> Result<bool, FabricFault> {
        let i = place(self.size(), link)?;
        Ok(self.is_on(i))
    }

    // Not one function with disable: its flag would choose which step to run.
    #[tactic(auto, using(port_layout::proofs::Tables::length_flags))]
    fn enable(&mut self, link: u32) -> Result<(), FabricFault>
        ensures answer { Enables (flags self.old.n self.old.ends.now self.old.bytes.now) link result (flags self.new.n self.new.ends.now self.new.bytes.now) }
        ensures kept { OnErr result (self.new ≡ self.old) }
        ensures same { shape_of self.new.n self.new.ends.now self.new.bytes.ghost_name ≡ shape_of self.old.n self.old.ends.now self.old.bytes.ghost_name }
        ensures memory { OnOk result (self.new.bytes.now ≡ enabled self.old.n self.old.ends.now self.old.bytes.now (link - 1)) }
    {
        let i = place(self.size(), link)?;
        check_turn(link, self.is_on(i), true)?;
        self.chain_link(i);
        Ok(())
    }

    #[tactic(auto, using(port_layout::proofs::Tables::length_flags))]
    fn disable(&mut self, link: u32) -> Result<(), FabricFault>
        ensures answer { Disables (flags self.old.n self.old.ends.now self.old.bytes.now) link result (flags self.new.n self.new.ends.now self.new.bytes.now) }
        ensures kept { OnErr result (self.new ≡ self.old) }
        ensures same { shape_of self.new.n self.new.ends.now self.new.bytes.ghost_name ≡ shape_of self.old.n self.old.ends.now self.old.bytes.ghost_name }
        ensures memory { OnOk result (self.new.bytes.now ≡ disabled self.old.n self.old.ends.now self.old.bytes.now (link - 1)) }
    {
        let i = place(self.size(), link)?;
        check_turn(link, self.is_on(i), false)?;
        self.unchain_link(i);
        Ok(())
    }
}
