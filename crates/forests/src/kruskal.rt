//! Kruskal's greedy choice over links in a table: of links in order, those whose ends are not yet joined.
ghost use Rattle.std.specs.Prelude.{◌≡◌, ℕ, ◌^◌, ◌≤◌, List, [], length, take};
ghost use Rattle.block_records.specs.declared.Link.{Link};
ghost use Rattle.graphs.specs.Forest.{greedy};
ghost use Rattle.block_records.specs.Words.{links_in};
ghost use Rattle.forests.specs.Union.{Holds, Ends};

use crate::union_find::Classes;
use block_records::Link;

/// Of links in order keeps those whose ends the classes and the kept ones before do not yet join, brings them to the
/// front, and says how many they are.
pub fn keep_on(links: &mut [[u32; 3]], classes: &mut Classes) -> usize
    requires { Ends (length classes.old.parent.now) (links_in links.old) }
    ensures within { result ≤ length links.old }
    ensures kept { (K : List Link) → Holds K classes.old.parent.now → take result (links_in links.new) ≡ greedy K (links_in links.old) }
    ensures size { length classes.new.parent.now ≡ length classes.old.parent.now }
    ensures lent { classes.new.parent.ghost_name ≡ classes.old.parent.ghost_name }
{
    let mut k = 0;
    // By index: the links kept are written into the table that is read. Not one function with thinning's `retain`: the
    // test here changes as it goes, and a closure for both would need clauses on what it has changed.
    for i in 0..links.len() {
        let link = Link::from(links[i]);
        if classes.unite(link.a.0, link.b.0) {
            links[k] = links[i];
            k += 1;
        }
    }
    k
}

/// Of links in order keeps those whose ends the kept ones before do not yet join, brings them to the front, and says how
/// many they are.
pub fn keep(links: &mut [[u32; 3]], parent: &mut [u32]) -> usize
    requires size { length parent.old ≤ 2 ^ 32 }
    requires ends { Ends (length parent.old) (links_in links.old) }
    ensures within { result ≤ length links.old }
    ensures kept { take result (links_in links.new) ≡ greedy [] (links_in links.old) }
{
    let mut classes = Classes::new(parent);
    keep_on(links, &mut classes)
}
