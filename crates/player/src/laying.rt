//! Laying a plan on a fabric.

ghost use Rattle.std.specs.Prelude.{◌≡◌, [], length, None, OnErr};
ghost use Rattle.player.specs.Plan.{sheet};
ghost use Rattle.player.specs.Start.{list_fault};
ghost use Rattle.player.specs.Lay.{only, agree, Lays};

use crate::plan::Plan;
use crate::start::StartList;
use crate::states::Steady;
use fabrics::Fabric;
use faults::PlayerFault;

/// What a fabric carries: nothing, and exactly the links of a list. Both are so where the list is empty.
#[derive(Drop)]
struct Found {
    blank: bool,
    exact: bool,
}

/// Looks at every link in number order. In an ascending list `at` goes along.
fn survey<F: Fabric>(fabric: &F, m: u32, list: &StartList) -> Found
    requires size { length (F.Fabric.carrying fabric.now) ≡ m }
    requires sound { list_fault m [] list.now.links.now ≡ None }
    ensures blank { result.blank ≡ agree (F.Fabric.carrying fabric.now) (only m []) }
    ensures exact { result.exact ≡ agree (F.Fabric.carrying fabric.now) (only m list.now.links.now) }
{
    let mut found = Found {
        blank: true,
        exact: true,
    };
    let mut at = 0;
    for link in 1..=m {
        let on = fabric.look(link).unwrap();
        let listed = list.lists_at(at, link);
        found.blank &= !on;
        found.exact &= on == listed;
        if listed {
            at += 1;
        }
    }
    found
}

/// Enables a list of links in order, in a fabric that carries none.
fn light<F: Fabric>(fabric: &mut F, m: u32, start: &[u32])
    requires blank { F.Fabric.carrying fabric.old ≡ only m [] }
    requires sound { list_fault m [] start.now ≡ None }
    ensures carrying { F.Fabric.carrying fabric.new ≡ only m start.now }
    ensures same { F.Fabric.shape fabric.new ≡ F.Fabric.shape fabric.old }
{
    for link in start {
        fabric.enable(*link).unwrap();
    }
}

/// Lays a plan on a fabric that carries nothing or exactly the start list; then exactly the start list carries, and the
/// player is steady after 0 changes.
pub fn lay<F: Fabric>(plan: &Plan, fabric: &mut F) -> Result<Steady, PlayerFault>
    ensures answer { Lays (sheet plan.now) (F.Fabric.carrying fabric.old) result (F.Fabric.carrying fabric.new) }
    ensures kept { OnErr result (fabric.new ≡ fabric.old) }
    ensures same { F.Fabric.shape fabric.new ≡ F.Fabric.shape fabric.old }
{
    if fabric.size() != plan.m {
        return Err(PlayerFault::OtherSize);
    }
    plan.check()?;
    let start = StartList::new(&plan.start[..(plan.n - 1) as usize]);
    start.check(plan.m)?;
    let found = survey(fabric, plan.m, &start);
    if found.blank {
        light(fabric, plan.m, start.links);
    } else if !found.exact {
        return Err(PlayerFault::NotBlank);
    }
    Ok(Steady {
        counts: plan.counts(),
        t: 0,
    })
}
