//! The link map: a byte of lent memory for each link.

ghost use Rattle.std.specs.Prelude.{◌≡◌, ◌-◌, ◌≤◌, length, OnErr, OnOk, slice_set};
ghost use Rattle.fabrics.specs.Blank.{Begins};
ghost use Rattle.fabrics.specs.Map.{flags, Bits, byte, map_fault, MapShape, shape_of};
ghost use Rattle.fabrics.specs.Meaning.{Enables, Disables, Turns};
ghost use Rattle.network.specs.Ends.{unless};

use crate::fabric::{Fabric, check_turn, place};
use faults::{BlankFault, FabricFault};
use network::MAX_LINKS;

/// A fabric of m links in the first m bytes of lent memory: 1 for a link that carries and 0 for one that does not.
#[derive(Drop)]
pub struct LinkMap<'a> {
    // The size stands beside the bytes: longer memory is lent whole, and keeps its rest.
    m: u32,
    bytes: &'a mut [u8],
    // A refused map is no Err: it holds its memory until it is let go, and as a fabric of no links takes any call.
    refusal: Option<BlankFault>,
    ghost fits: { m ≤ length bytes.now },
    ghost bits: { Bits m bytes.now },
}

/// Refuses memory of `len` bytes that makes no link map of m links.
fn check_map(m: u32, len: usize) -> Result<(), BlankFault>
    ensures { result ≡ unless (map_fault m len) tt }
{
    if m as usize > MAX_LINKS {
        return Err(BlankFault::LinkCount);
    }
    if len < m as usize {
        return Err(BlankFault::ShortMemory);
    }
    Ok(())
}

impl<'a> LinkMap<'a> {
    /// Makes a blank link map of m links: the first m bytes become 0, and longer memory keeps its rest. A refused map
    /// has no links, leaves its memory as it stood, and tells its `refusal`.
    pub fn blank(m: u32, bytes: &'a mut [u8]) -> LinkMap<'a>
        ensures refusal { result.refusal ≡ map_fault m (length bytes.old) }
        ensures outcome { Begins (map_fault m (length bytes.old)) m m bytes.old result.bytes.now (flags result.m result.bytes.now) }
        ensures lent { result.bytes.ghost_name ≡ bytes.entry.ghost_name }
    {
        if let Err(fault) = check_map(m, bytes.len()) {
            return LinkMap {
                m: 0,
                bytes,
                refusal: Some(fault),
            };
        }
        bytes[..m as usize].fill(0);
        LinkMap {
            m,
            bytes,
            refusal: None,
        }
    }

    /// Why the making of this map was refused, if it was.
    pub fn refusal(&self) -> Option<BlankFault>
        ensures { result ≡ self.now.refusal }
    {
        self.refusal
    }

    /// Makes a link carry, or with `on` false no longer carry.
    fn turn(&mut self, link: u32, on: bool) -> Result<(), FabricFault>
        ensures answer { Turns (flags self.old.m self.old.bytes.now) link on result (flags self.new.m self.new.bytes.now) }
        ensures kept { OnErr result (self.new ≡ self.old) }
        ensures same { shape_of self.new.m self.new.bytes.ghost_name ≡ shape_of self.old.m self.old.bytes.ghost_name }
        ensures memory { OnOk result (self.new.bytes.now ≡ slice_set self.old.bytes.now (link - 1) (byte on)) }
    {
        let i = place(self.m, link)?;
        check_turn(link, self.bytes[i] == 1, on)?;
        self.bytes[i] = u8::from(on);
        Ok(())
    }
}

impl Fabric for LinkMap<'_> {
    ghost carrying = { λ s. flags s.m s.bytes.now };

    ghost Shape = { MapShape };

    ghost shape = { λ s. shape_of s.m s.bytes.ghost_name };

    fn size(&self) -> u32 {
        self.m
    }

    fn look(&self, link: u32) -> Result<bool, FabricFault> {
        let i = place(self.m, link)?;
        Ok(self.bytes[i] == 1)
    }

    fn enable(&mut self, link: u32) -> Result<(), FabricFault>
        ensures answer { Enables (flags self.old.m self.old.bytes.now) link result (flags self.new.m self.new.bytes.now) }
        ensures kept { OnErr result (self.new ≡ self.old) }
        ensures same { shape_of self.new.m self.new.bytes.ghost_name ≡ shape_of self.old.m self.old.bytes.ghost_name }
        ensures memory { OnOk result (self.new.bytes.now ≡ slice_set self.old.bytes.now (link - 1) 1) }
    {
        self.turn(link, true)
    }

    fn disable(&mut self, link: u32) -> Result<(), FabricFault>
        ensures answer { Disables (flags self.old.m self.old.bytes.now) link result (flags self.new.m self.new.bytes.now) }
        ensures kept { OnErr result (self.new ≡ self.old) }
        ensures same { shape_of self.new.m self.new.bytes.ghost_name ≡ shape_of self.old.m self.old.bytes.ghost_name }
        ensures memory { OnOk result (self.new.bytes.now ≡ slice_set self.old.bytes.now (link - 1) 0) }
    {
        self.turn(link, false)
    }
}
