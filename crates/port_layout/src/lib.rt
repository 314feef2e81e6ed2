//! The layout of the port table and the theory of its chains: definitions that the contracts of crate `ports` cite, and
//! what enabling and disabling leave of the chains. It holds no code beyond a function whose contract is the laws.
#![tactic(auto)]

ghost use Rattle.port_layout.specs.Laws.{EnablePutsInFront, DisableTakesOut, OrderDoesNotMatter};

/// Its contract is three theorems: enable puts a link's two records at the front of their chains, disable takes them out
/// from wherever they stand, and which links carry then does not depend on the order of the chains.
pub fn port_table_laws()
    ensures front { EnablePutsInFront }
    ensures out { DisableTakesOut }
    ensures order { OrderDoesNotMatter }
{}
