//! What becomes of lent memory: a caller knows every byte once the fabric is let go.

ghost use Rattle.std.specs.Prelude.{◌≡◌, length, MatchResult};
ghost use Rattle.fabrics.specs.Blank.{blanked};
ghost use Rattle.fabrics.specs.Map.{map_fault};
ghost use Rattle.network.specs.Ends.{unless};

use fabrics::LinkMap;
use faults::BlankFault;

/// Makes a link map and lets it go: its bytes are blank, or stand where it is refused.
pub fn wipe(m: u32, bytes: &mut [u8]) -> Result<(), BlankFault>
    ensures answer { result ≡ unless (map_fault m (length bytes.old)) tt }
    ensures memory { MatchResult result (λ _. bytes.new ≡ blanked m bytes.old) (λ _. bytes.new ≡ bytes.old) }
{
    let map = LinkMap::blank(m, bytes);
    map.refusal().map_or(Ok(()), Err)
}
