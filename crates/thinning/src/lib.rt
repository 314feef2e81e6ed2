//! Thinning of a block's graph over lent tables: links that no change of the block can bring in go out, links that every
//! moment of the block holds have their ends merged, and what is left gives the same exchanges.
#![tactic(auto)]

ghost use Rattle.std.specs.Prelude.{◌≡◌, ℕ, ◌-◌, ◌^◌, ◌<◌, ◌≤◌, Bool, length, take};
ghost use Rattle.graphs.specs.Forest.{ordered, Strict};
ghost use Rattle.graphs.specs.Thin.{Block, reduced, mergeable, roots, relabel, thinned};
ghost use Rattle.plans.specs.Places.{place_before};
ghost use Rattle.block_records.specs.Words.{links_in};
ghost use Rattle.thinning.specs.Marks.{flag, Blank, Under, Below, unmarked, Ascends, Numbers};

mod contraction;
mod marks;
mod nodes;
mod reduction;

use contraction::{contract, merge};
use forests::{pick, sort_by_place};
pub use marks::fill_at;
use marks::gather;
use nodes::NodeTables;
use reduction::reduce;

// `named` and `chosen` stay two parameters: a struct of both would have to tell at each write of `chosen` that `named`, which
// is only read, stays. So do `links` and `others`: each half of thinning cuts them anew, so that what holds of their ends stays
// in clauses. `thin` takes `parent` and `name` one by one: a struct of two fields of the caller's tables was tried there, and
// that borrow is not covered.

/// The second half of thinning: from reduced links, with the others in their order, merges and reduces again; says how
/// many nodes and links are left.
fn finish(
    links: &mut [[u32; 3]],
    others: &mut [[u32; 3]],
    named: &[u32],
    chosen: &mut [u32],
    merged: &mut [[u32; 3]],
    nodes: &mut NodeTables,
) -> (u32, usize)
    requires room { length merged.old ≡ length others.old }
    requires named { Under (length named.now) (links_in links.old) }
    requires chosen { Under (length chosen.old) (links_in links.old) × Under (length chosen.old) (links_in others.old) }
    requires ends { Below (length nodes.old.parent.now) (links_in links.old) × Below (length nodes.old.parent.now) (links_in others.old) }
    requires blank { Blank chosen.old }
    ensures blank { Blank chosen.new }
    ensures within { result.1 ≤ length links.old }
    ensures finished { (lt : ℕ → ℕ → Bool) → Strict lt → Ascends (links_in links.old) → links_in others.old ≡ ordered lt (unmarked named.now (links_in links.old)) → (result.0 ≡ roots (mergeable (flag named.now) lt (links_in links.old)) (length nodes.old.parent.now - 1)) × (take result.1 (links_in links.new) ≡ reduced (flag named.now) lt (relabel (mergeable (flag named.now) lt (links_in links.old)) (links_in links.old))) }
{
    let q = merge(links, others, named, merged, nodes.parent);
    let n = contract(links, others, &merged[..q], nodes);
    let (r, _) = reduce(links, others, named, chosen, nodes.parent);
    (n, r)
}

/// Thins a block's links, with the others given in their order; says how many nodes and links are left.
fn thin_ordered(
    links: &mut [[u32; 3]],
    others: &mut [[u32; 3]],
    named: &[u32],
    chosen: &mut [u32],
    merged: &mut [[u32; 3]],
    nodes: &mut NodeTables,
) -> (u32, usize)
    requires room { length others.old ≤ length merged.old }
    requires named { Under (length named.now) (links_in links.old) }
    requires chosen { Under (length chosen.old) (links_in links.old) × Under (length chosen.old) (links_in others.old) }
    requires ends { Below (length nodes.old.parent.now) (links_in links.old) × Below (length nodes.old.parent.now) (links_in others.old) }
    requires blank { Blank chosen.old }
    ensures blank { Blank chosen.new }
    ensures within { result.1 ≤ length links.old }
    ensures thinned { (lt : ℕ → ℕ → Bool) → Strict lt → Ascends (links_in links.old) → links_in others.old ≡ ordered lt (unmarked named.now (links_in links.old)) → ◌≡◌ {A = Block} (record { nodes = result.0; links = take result.1 (links_in links.new) }) (thinned (flag named.now) lt (record { nodes = length nodes.old.parent.now - 1; links = links_in links.old })) }
{
    let (r, k) = reduce(links, others, named, chosen, nodes.parent);
    finish(
        &mut links[..r],
        &mut others[..k],
        named,
        chosen,
        &mut merged[..k],
        nodes,
    )
}

/// Copies the links that are not named, in their order by place and number, and says how many they are; `spare` is for
/// their positions.
fn order_others(
    links: &[[u32; 3]],
    places: &[u32],
    named: &[u32],
    others: &mut [[u32; 3]],
    spare: &mut [u32],
) -> usize
    requires room { (length links.now ≤ length others.old) × (length links.now ≤ length spare.old) }
    requires tables { (length places.now < length named.now) × (length places.now ≤ 2 ^ 32) }
    requires numbers { Numbers (length places.now) (links_in links.now) }
    requires ascends { Ascends (links_in links.now) }
    ensures within { result ≤ length links.now }
    ensures ordered { take result (links_in others.new) ≡ ordered (place_before places.now) (unmarked named.now (links_in links.now)) }
{
    let r = gather(links, named, spare);
    let order = &mut spare[..r];
    sort_by_place(links, places, order);
    pick(links, order, &mut others[..r]);
    r
}

/// Thins a block's links at their places, given which of them the block's changes name; says how many nodes and links are
/// left. The links left stand at the front, by number as before. `others` and `spare` are scratch, `spare` first for the
/// positions of the other links and then for the merged ones; `parent` and `name` have a word for each node and one more.
pub fn thin(
    links: &mut [[u32; 3]],
    places: &[u32],
    named: &[u32],
    chosen: &mut [u32],
    others: &mut [[u32; 3]],
    spare: &mut [[u32; 3]],
    parent: &mut [u32],
    name: &mut [u32],
) -> (u32, usize)
    requires size { (0 < length parent.old) × (length parent.old ≤ 2 ^ 32) × (length name.old ≡ length parent.old) }
    requires room { (length links.old ≤ length others.old) × (length links.old ≤ length spare.old) }
    requires tables { (length places.now < length named.now) × (length places.now < length chosen.old) × (length places.now ≤ 2 ^ 32) }
    requires numbers { Numbers (length places.now) (links_in links.old) }
    requires ascends { Ascends (links_in links.old) }
    requires ends { Below (length parent.old) (links_in links.old) }
    requires blank { Blank chosen.old }
    ensures blank { Blank chosen.new }
    ensures within { result.1 ≤ length links.old }
    ensures thinned { ◌≡◌ {A = Block} (record { nodes = result.0; links = take result.1 (links_in links.new) }) (thinned (flag named.now) (place_before places.now) (record { nodes = length parent.old - 1; links = links_in links.old })) }
{
    let mut nodes = NodeTables { parent, name };
    let r = order_others(links, places, named, others, spare.as_flattened_mut());
    thin_ordered(
        links,
        &mut others[..r],
        named,
        chosen,
        &mut spare[..r],
        &mut nodes,
    )
}
