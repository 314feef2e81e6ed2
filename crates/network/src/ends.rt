//! Judging the ends of links.
ghost use Rattle.std.specs.Prelude.{◌≡◌, ◌≤◌, length};
ghost use Rattle.network.specs.Ends.{no_node, end_fault, first_end_fault, unless, no_open, no_blank};

use crate::types::{EndFault, Ends, Node};
use faults::{BlankFault, OpenFault};

impl From<EndFault> for OpenFault {
    ghost from_gives = { λ f r. r ≡ no_open f };

    fn from(fault: EndFault) -> OpenFault {
        match fault {
            EndFault::Outside(link) => OpenFault::EndOutside(link),
            EndFault::Same(link) => OpenFault::SameEnds(link),
        }
    }
}

impl From<EndFault> for BlankFault {
    ghost from_gives = { λ f r. r ≡ no_blank f };

    fn from(fault: EndFault) -> BlankFault {
        match fault {
            EndFault::Outside(link) => BlankFault::EndOutside(link),
            EndFault::Same(link) => BlankFault::SameEnds(link),
        }
    }
}

/// Whether this is none of the nodes 1 to n.
fn outside(n: u32, node: Node) -> bool
    ensures { result ≡ no_node n node }
{
    node.0 == 0 || n < node.0
}

/// Refuses link k if an end of it is no node, or both are one.
fn check_link(n: u32, k: u32, ends: Ends) -> Result<(), EndFault>
    ensures { result ≡ unless (end_fault n k ends) tt }
{
    if outside(n, ends.a) || outside(n, ends.b) {
        return Err(EndFault::Outside(k));
    }
    if ends.a == ends.b {
        return Err(EndFault::Same(k));
    }
    Ok(())
}

/// Refuses an ends list at its first faulty link, if one is.
pub fn check_ends(n: u32, ends: &[Ends]) -> Result<(), EndFault>
    requires { length ends.now ≤ 16384 }
    ensures { result ≡ unless (first_end_fault n 1 ends.now) tt }
{
    for (i, link) in ends.iter().enumerate() {
        check_link(n, i as u32 + 1, *link)?;
    }
    Ok(())
}
