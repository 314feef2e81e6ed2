//! Reduction of a block's links: the named ones, and the least forest of the others.
ghost use Rattle.std.specs.Prelude.{◌≡◌, ℕ, ◌^◌, ◌≤◌, Bool, [], length, take};
ghost use Rattle.graphs.specs.Forest.{greedy, ordered, forest, filtered};
ghost use Rattle.graphs.specs.Thin.{holds, either, reduced};
ghost use Rattle.block_records.specs.Words.{links_in};
ghost use Rattle.thinning.specs.Marks.{flag, Blank, Under, Below, unmarked};

use crate::marks::{fill_at, retain};
use forests::keep;

/// Reduces a block's links to the named ones and the least forest of the others, which are given in their order; says how
/// many links and how many others are left.
pub(crate) fn reduce(
    links: &mut [[u32; 3]],
    others: &mut [[u32; 3]],
    named: &[u32],
    chosen: &mut [u32],
    parent: &mut [u32],
) -> (usize, usize)
    requires size { length parent.old ≤ 2 ^ 32 }
    requires named { Under (length named.now) (links_in links.old) }
    requires chosen { Under (length chosen.old) (links_in links.old) × Under (length chosen.old) (links_in others.old) }
    requires ends { Below (length parent.old) (links_in others.old) }
    requires blank { Blank chosen.old }
    ensures blank { Blank chosen.new }
    ensures within { (result.0 ≤ length links.old) × (result.1 ≤ length others.old) }
    ensures links { take result.0 (links_in links.new) ≡ filtered (λ e. either (flag named.now e.number) (holds e.number (greedy [] (links_in others.old)))) (links_in links.old) }
    ensures others { take result.1 (links_in others.new) ≡ greedy [] (links_in others.old) }
    ensures reduced { (lt : ℕ → ℕ → Bool) → links_in others.old ≡ ordered lt (unmarked named.now (links_in links.old)) → (take result.0 (links_in links.new) ≡ reduced (flag named.now) lt (links_in links.old)) × (take result.1 (links_in others.new) ≡ forest lt (unmarked named.now (links_in links.old))) }
{
    let k = keep(others, parent);
    fill_at(chosen, &others[..k], 1);
    let r = retain(links, named, chosen);
    fill_at(chosen, &others[..k], 0);
    (r, k)
}
