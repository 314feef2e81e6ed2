//! Changes of links, made in a link table.
ghost use Rattle.std.specs.Prelude.{◌≡◌, ◌≤◌, length};
ghost use Rattle.plans.specs.Network.{link_of, changed_link, changed, changed_by};
ghost use Rattle.places.specs.Moves.{Known};

use network::{Change, LinkState};
use weights::Ordered;

/// The link that a change names.
pub fn link_of<W: Ordered>(change: &Change<W>) -> u32
    ensures { result ≡ link_of change.now }
{
    match change {
        Change::Set(k, _) | Change::Remove(k) | Change::Flip(k) => *k,
    }
}

/// What a change makes of its link.
fn changed_link<W: Ordered>(change: Change<W>, link: LinkState<W>) -> LinkState<W>
    ensures { result ≡ changed_link change link }
{
    match change {
        Change::Set(_, weight) => LinkState {
            weight,
            present: true,
        },
        Change::Remove(_) => LinkState {
            present: false,
            ..link
        },
        Change::Flip(_) => LinkState {
            present: !link.present,
            ..link
        },
    }
}

/// Makes one change.
fn change_link<W: Ordered>(links: &mut [LinkState<W>], change: Change<W>)
    requires { (1 ≤ link_of change) × (link_of change ≤ length links.old) }
    ensures { links.new ≡ changed links.old change }
{
    let i = link_of(&change) as usize - 1;
    links[i] = changed_link(change, links[i]);
}

/// Makes the changes of a batch, in turn.
pub fn change_links<W: Ordered>(links: &mut [LinkState<W>], batch: &[Change<W>])
    requires { Known (length links.old) batch.now }
    ensures { links.new ≡ changed_by links.old batch.now }
{
    for change in batch {
        change_link(links, *change);
    }
}
