//! Places: numbers in the order of a ranking, equal for what is level.
ghost use Rattle.std.specs.Prelude.{◌≡◌, ℕ, ◌^◌, ◌<◌, ◌≤◌, length, nat_lt, slice_index};
ghost use Rattle.std.specs.Cmp.{IsStrictWeakOrder};
ghost use Rattle.forests.specs.Heap.{at, Indexes, Sorted};
ghost use Rattle.places.specs.Pool.{rank};

use forests::Ranking;

/// Numbers indexes that stand in order, from 0 on; the number rises by one where an index comes after the one before it.
fn number<R: Ranking>(ranking: &R, order: &[u32], places: &mut [u32])
    requires indexes { Indexes order.now (R.Ranking.count ranking.now) }
    requires ranks { IsStrictWeakOrder (R.Ranking.before ranking.now) }
    requires size { (length places.old ≡ R.Ranking.count ranking.now) × (length order.now ≤ 2 ^ 32) }
    requires sorted { Sorted (R.Ranking.before ranking.now) (at order.now) 0 (length order.now) }
    ensures { (k : ℕ) → k < length order.now → slice_index places.new (slice_index order.now k) ≡ rank (R.Ranking.before ranking.now) (at order.now) k }
{
    let [first, ..] = order else {
        return;
    };
    let mut step = 0;
    let mut last = *first;
    for i in order {
        if ranking.precedes(last, *i) {
            step += 1;
        }
        places[*i as usize] = step;
        last = *i;
    }
}

/// Gives each index below a ranking's count a place: of two indexes one has the smaller place exactly if it comes before
/// the other. The order table is for working.
pub(crate) fn give_places<R: Ranking>(ranking: &R, order: &mut [u32], places: &mut [u32])
    requires size { (length order.old ≡ R.Ranking.count ranking.now) × (length places.old ≡ R.Ranking.count ranking.now) × (R.Ranking.count ranking.now ≤ 2 ^ 32) }
    requires ranks { IsStrictWeakOrder (R.Ranking.before ranking.now) }
    ensures { (i j : ℕ) → i < R.Ranking.count ranking.now → j < R.Ranking.count ranking.now → nat_lt (slice_index places.new i) (slice_index places.new j) ≡ R.Ranking.before ranking.now i j }
{
    forests::start(order);
    forests::sort(ranking, order);
    number(ranking, order, places);
}
