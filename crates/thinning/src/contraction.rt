//! Contraction of a block's graph: the links that every moment of the block holds are found, their ends merged and the
//! merged nodes numbered anew, and then the ends of the links renamed.
ghost use Rattle.std.specs.Prelude.{◌≡◌, ℕ, ◌-◌, ◌^◌, ◌<◌, ◌≤◌, Bool, List, [], map, length, take};
ghost use Rattle.block_records.specs.declared.Link.{Link};
ghost use Rattle.graphs.specs.Graph.{In};
ghost use Rattle.graphs.specs.Forest.{filtered, greedy};
ghost use Rattle.graphs.specs.Thin.{roots, relabel};
ghost use Rattle.block_records.specs.Words.{links_in};
ghost use Rattle.forests.specs.Union.{Holds};
ghost use Rattle.thinning.specs.Marks.{Under, Below, marked, stacked};
ghost use Rattle.thinning.specs.Names.{Renames, through};

use crate::nodes::NodeTables;
use block_records::{BlockNode, Link};
use forests::{Classes, keep_on};

/// Joins the ends of the links whose numbers pass a test.
fn join<F: Fn(u32) -> bool>(links: &[[u32; 3]], classes: &mut Classes, passes: F)
    requires tests { (e : Link) → In e (links_in links.now) → F.pre passes e.number }
    requires ends { Below (length classes.old.parent.now) (links_in links.now) }
    ensures joins { (p : ℕ → Bool) → ((e : Link) (b : Bool) → In e (links_in links.now) → F.post passes e.number b → b ≡ p e.number) → (K : List Link) → Holds K classes.old.parent.now → Holds (stacked K (filtered (λ e. p e.number) (links_in links.now))) classes.new.parent.now }
    ensures size { length classes.new.parent.now ≡ length classes.old.parent.now }
    ensures lent { classes.new.parent.ghost_name ≡ classes.old.parent.ghost_name }
{
    for words in links {
        let link = Link::from(*words);
        if passes(link.number) {
            classes.unite(link.a.0, link.b.0);
        }
    }
}

/// Copies those of the others, in their order, whose ends the named links and the ones before do not join, and says how
/// many they are.
pub(crate) fn merge(
    links: &[[u32; 3]],
    others: &[[u32; 3]],
    named: &[u32],
    merged: &mut [[u32; 3]],
    parent: &mut [u32],
) -> usize
    requires size { length parent.old ≤ 2 ^ 32 }
    requires room { length merged.old ≡ length others.now }
    requires named { Under (length named.now) (links_in links.now) }
    requires ends { Below (length parent.old) (links_in links.now) × Below (length parent.old) (links_in others.now) }
    ensures within { result ≤ length merged.old }
    ensures merged { take result (links_in merged.new) ≡ greedy (stacked [] (marked named.now (links_in links.now))) (links_in others.now) }
{
    let mut classes = Classes::new(parent);
    join(links, &mut classes, |k| named[k as usize] == 1);
    merged.copy_from_slice(others);
    keep_on(merged, &mut classes)
}

/// Numbers the classes from 1 by their smallest member, gives each node the number of its class, and says how many classes
/// there are.
fn number_classes(classes: &Classes, name: &mut [u32]) -> u32
    requires { (0 < length classes.now.parent.now) × (length classes.now.parent.now ≤ 2 ^ 32) × (length name.old ≡ length classes.now.parent.now) }
    ensures { (ms : List Link) → Holds ms classes.now.parent.now → Renames ms name.new (length classes.now.parent.now) × (result ≡ roots ms (length classes.now.parent.now - 1)) }
{
    let mut count = 0;
    name[0] = 0;
    // By number: node 0 is no node, and a node may take the name of its parent, from the table that is written.
    for x in 1..classes.parent.len() {
        let up = classes.parent[x] as usize;
        if up == x {
            count += 1;
            name[x] = count;
        } else {
            name[x] = name[up];
        }
    }
    count
}

/// The new numbers of the nodes where the ends of some links are merged; says how many there are. No link changes.
fn number_nodes(merged: &[[u32; 3]], nodes: &mut NodeTables) -> u32
    requires ends { Below (length nodes.old.parent.now) (links_in merged.now) }
    ensures kept { length nodes.new.parent.now ≡ length nodes.old.parent.now }
    ensures names { Renames (links_in merged.now) nodes.new.name.now (length nodes.old.parent.now) }
    ensures count { result ≡ roots (links_in merged.now) (length nodes.old.parent.now - 1) }
{
    let mut classes = Classes::new(nodes.parent);
    join(merged, &mut classes, |_| true);
    number_classes(&classes, nodes.name)
}

/// Gives the links' ends their new numbers.
pub(crate) fn rename(links: &mut [[u32; 3]], name: &[u32])
    requires { Below (length name.now) (links_in links.old) }
    ensures { links_in links.new ≡ map (through name.now) (links_in links.old) }
{
    for words in links.iter_mut() {
        let link = Link::from(*words);
        let renamed = Link {
            number: link.number,
            a: BlockNode(name[link.a.0 as usize]),
            b: BlockNode(name[link.b.0 as usize]),
        };
        *words = renamed.into();
    }
}

/// Merges the ends of some links, numbers the merged nodes, renames the ends of a block's links and others, and says how
/// many nodes are left.
pub(crate) fn contract(
    links: &mut [[u32; 3]],
    others: &mut [[u32; 3]],
    merged: &[[u32; 3]],
    nodes: &mut NodeTables,
) -> u32
    requires ends { Below (length nodes.old.parent.now) (links_in links.old) × Below (length nodes.old.parent.now) (links_in others.old) × Below (length nodes.old.parent.now) (links_in merged.now) }
    ensures kept { length nodes.new.parent.now ≡ length nodes.old.parent.now }
    ensures links { links_in links.new ≡ relabel (links_in merged.now) (links_in links.old) }
    ensures others { links_in others.new ≡ relabel (links_in merged.now) (links_in others.old) }
    ensures count { result ≡ roots (links_in merged.now) (length nodes.old.parent.now - 1) }
{
    let n = number_nodes(merged, nodes);
    let name = &*nodes.name;
    rename(links, name);
    rename(others, name);
    n
}
