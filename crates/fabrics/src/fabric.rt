//! What any fabric has to show: the links that carry, and four calls on them; and the checks that a call on a link
//! begins with.

ghost use Rattle.std.specs.Prelude.{◌≡◌, Bool, List, length, OnErr};
ghost use Rattle.fabrics.specs.Meaning.{Looks, Enables, Disables, Places, flag_fault};
ghost use Rattle.network.specs.Ends.{unless};

use faults::FabricFault;

/// A fabric: a size m, and a set of carrying links among 1 to m.
pub trait Fabric {
    /// The flag of each link, that of link k at place k - 1; so the size is their number.
    ghost carrying: { Self → List Bool };

    /// What a fabric keeps while links are enabled and disabled: its size, its wiring, and the memory that it was lent.
    ghost Shape: { Type 0 };

    ghost shape: { Self → Shape };

    /// The size m.
    fn size(&self) -> u32
        ensures { result ≡ length (carrying self.now) };

    /// Whether a link carries.
    fn look(&self, link: u32) -> Result<bool, FabricFault>
        ensures { Looks (carrying self.now) link result };

    /// Adds a link to those that carry.
    fn enable(&mut self, link: u32) -> Result<(), FabricFault>
        ensures answer { Enables (carrying self.old) link result (carrying self.new) }
        ensures kept { OnErr result (self.new ≡ self.old) }
        ensures same { shape self.new ≡ shape self.old };

    /// Takes a link out of those that carry.
    fn disable(&mut self, link: u32) -> Result<(), FabricFault>
        ensures answer { Disables (carrying self.old) link result (carrying self.new) }
        ensures kept { OnErr result (self.new ≡ self.old) }
        ensures same { shape self.new ≡ shape self.old };
}

/// The place of a link in a fabric of this size, counted from 0, or the refusal of a link that the fabric does not have.
pub fn place(size: u32, link: u32) -> Result<usize, FabricFault>
    ensures { Places size link result }
{
    if link == 0 || link > size {
        return Err(FabricFault::LinkOutside(link));
    }
    Ok((link - 1) as usize)
}

/// Refuses to turn a link on that carries already, or off one that does not carry.
pub fn check_turn(link: u32, carries: bool, on: bool) -> Result<(), FabricFault>
    ensures { result ≡ unless (flag_fault link carries on) tt }
{
    match (carries, on) {
        (true, true) => Err(FabricFault::CarriesAlready(link)),
        (false, false) => Err(FabricFault::CarriesNot(link)),
        _ => Ok(()),
    }
}
