//! Links told apart by marks: a word for each link number, 1 for marked. Marks are words, since the work area is lent as
//! words.
ghost use Rattle.std.specs.Prelude.{◌≡◌, ℕ, ◌^◌, ◌<◌, ◌≤◌, cond, map, length, take, slice_index, EachIndex};
ghost use Rattle.graphs.specs.Forest.{filtered};
ghost use Rattle.graphs.specs.Thin.{either};
ghost use Rattle.plans.specs.Plan.{among};
ghost use Rattle.block_records.specs.Words.{link_in, links_in, numbers_in};
ghost use Rattle.thinning.specs.Marks.{flag, Under, unmarked};

use block_records::Link;

/// Writes a word at the number of each record, which is the record's first word.
pub fn fill_at<const N: usize>(marks: &mut [u32], records: &[[u32; N]], word: u32)
    requires numbered { 0 < N }
    requires under { EachIndex (numbers_in records.now) (λ i. slice_index (numbers_in records.now) i < length marks.old) }
    ensures { (k : ℕ) → slice_index marks.new k ≡ cond (among k (numbers_in records.now)) word (slice_index marks.old k) }
{
    for words in records {
        marks[words[0] as usize] = word;
    }
}

/// Notes the positions of the links that are not marked, and says how many they are.
pub(crate) fn gather(links: &[[u32; 3]], marks: &[u32], order: &mut [u32]) -> usize
    requires room { (length links.now ≤ length order.old) × (length links.now ≤ 2 ^ 32) }
    requires under { Under (length marks.now) (links_in links.now) }
    ensures within { result ≤ length links.now }
    ensures indexes { (j : ℕ) → j < result → slice_index order.new j < length links.now }
    ensures others { map (link_in links.now) (take result order.new) ≡ unmarked marks.now (links_in links.now) }
{
    // By a count: an iterator that writes `order` beside another says nothing of what it wrote.
    let mut k = 0;
    for (i, words) in links.iter().enumerate() {
        let link = Link::from(*words);
        if marks[link.number as usize] != 1 {
            order[k] = i as u32;
            k += 1;
        }
    }
    k
}

/// Whether the number k is marked in one of two tables.
fn either_marks(named: &[u32], chosen: &[u32], k: u32) -> bool
    requires { (k < length named.now) × (k < length chosen.now) }
    ensures { result ≡ either (flag named.now k) (flag chosen.now k) }
{
    named[k as usize] == 1 || chosen[k as usize] == 1
}

/// Keeps the links that are named or chosen, in their order, and says how many they are.
pub(crate) fn retain(links: &mut [[u32; 3]], named: &[u32], chosen: &[u32]) -> usize
    requires named { Under (length named.now) (links_in links.old) }
    requires chosen { Under (length chosen.now) (links_in links.old) }
    ensures within { result ≤ length links.old }
    ensures kept { take result (links_in links.new) ≡ filtered (λ e. either (flag named.now e.number) (flag chosen.now e.number)) (links_in links.old) }
{
    let mut k = 0;
    // By index: the links kept are written into the table that is read. Not one function with `keep_on` of forests, whose test
    // changes as it goes.
    for i in 0..links.len() {
        let link = Link::from(links[i]);
        if either_marks(named, chosen, link.number) {
            links[k] = links[i];
            k += 1;
        }
    }
    k
}
