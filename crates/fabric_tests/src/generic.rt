//! Code over any fabric, proved once from the meaning.

ghost use Rattle.std.specs.Prelude.{◌≡◌};
ghost use Rattle.fabric_tests.specs.Toggle.{Toggles};

use fabrics::Fabric;
use faults::FabricFault;

/// Disables a link that carries and enables one that does not, and tells whether it carries now.
pub fn toggle<F: Fabric>(fabric: &mut F, link: u32) -> Result<bool, FabricFault>
    ensures answer { Toggles (F.Fabric.carrying fabric.old) link result (F.Fabric.carrying fabric.new) }
    ensures same { F.Fabric.shape fabric.new ≡ F.Fabric.shape fabric.old }
{
    if fabric.look(link)? {
        fabric.disable(link)?;
        Ok(false)
    } else {
        fabric.enable(link)?;
        Ok(true)
    }
}
