//! The pool of a batch: all standings that occur in it, each told by a number that says where its weight stands, so that
//! no weight is copied. With m links, a number below m tells the weight of the link of that index, m + j the weight that
//! change j, counted from 0, sets, and any other number absent.
ghost use Rattle.std.specs.Prelude.{◌≡◌, ℕ, ◌+◌, ◌^◌, ◌<◌, ◌≤◌, [], ◌∷◌, ◌++◌, length, OnOk, slice_index, slice_index_or};
ghost use Rattle.weights.specs.declared.standing.Standing.TheVariants.{Absent};
ghost use Rattle.weights.specs.Order.{compared, stand};
ghost use Rattle.plans.specs.Network.{link_of, standings, moves_of};
ghost use Rattle.plans.specs.Same.{pool};
ghost use Rattle.network.specs.Ends.{unless};
ghost use Rattle.places.specs.Changes.{changes_fault};
ghost use Rattle.places.specs.Pool.{stands_before, set_to, weights_of, told_by, sourced, source_of, state_of, states, Judged, held_by, state_by, states_by, source_by};

use crate::changes::link_of;
use crate::places::give_places;
use faults::DrawFault;
use forests::Ranking;
use network::{Change, LinkState};
use weights::{Ordered, Side, Standing};

/// The number at which no weight stands. Lent words can hold no Option.
const NOWHERE: u32 = u32::MAX;

/// Where the standing of a link stands whose weight stands there and whose state is this.
fn source_of(weight: u32, state: u32) -> u32
    ensures { result ≡ source_of weight state }
{
    if state == 0 { NOWHERE } else { weight }
}

/// The state of its link after a change.
fn state_after<W: Ordered>(change: &Change<W>, state: u32) -> u32
    ensures { result ≡ state_by change.now state }
{
    match change {
        Change::Set(_, _) => 1,
        Change::Remove(_) => 0,
        Change::Flip(_) => u32::from(state == 0),
    }
}

/// The state of a link as a number: 1 for present, 0 for absent.
fn state_of<W: Ordered>(link: &LinkState<W>) -> u32
    ensures { result ≡ state_of link.now }
{
    u32::from(link.present)
}

/// Notes the states of links.
fn note_states<W: Ordered>(links: &[LinkState<W>], present: &mut [u32])
    requires { length present.old ≡ length links.now }
    ensures { present.new ≡ states links.now }
{
    for (i, link) in links.iter().enumerate() {
        present[i] = state_of(link);
    }
}

/// The links as a batch goes on: where each link's weight stands, and its state, 1 for present and 0 for absent. Lent
/// words can hold no bool.
#[derive(Drop)]
struct Tracked<'a, 'b> {
    held: &'a mut [u32],
    present: &'b mut [u32],
    ghost even: { length present.now ≡ length held.now },
}

impl Tracked<'_, '_> {
    /// Refuses change i, if it may not be made in these states.
    fn check<W: Ordered>(&self, i: u32, change: &Change<W>) -> Result<(), DrawFault>
        ensures { Judged i change.now self.now.present.now result }
    {
        let k = link_of(change) as usize;
        if k == 0 || self.present.len() < k {
            return Err(DrawFault::LinkOutside(i));
        }
        match change {
            Change::Remove(_) if self.present[k - 1] == 0 => Err(DrawFault::RemoveAbsent(i)),
            _ => Ok(()),
        }
    }

    /// Makes a change, where what it sets stands at `own`, and says where the standing of its link stands after it.
    fn make<W: Ordered>(&mut self, change: &Change<W>, own: u32) -> u32
        requires { (1 ≤ link_of change.now) × (link_of change.now ≤ length self.old.held.now) }
        ensures held { self.new.held.now ≡ held_by change.now own self.old.held.now }
        ensures present { self.new.present.now ≡ states_by change.now self.old.present.now }
        ensures source { result ≡ source_by change.now own self.old.held.now self.old.present.now }
    {
        let x = link_of(change) as usize - 1;
        if let Change::Set(_, _) = change {
            self.held[x] = own;
        }
        self.present[x] = state_after(change, self.present[x]);
        source_of(self.held[x], self.present[x])
    }

    /// Notes where the standings of the links stand, at the front of the table of sources.
    fn note_sources(&self, sources: &mut [u32])
        requires { length self.now.held.now ≤ length sources.old }
        ensures { (x : ℕ) → x < length self.now.held.now → slice_index sources.new x ≡ source_of (slice_index self.now.held.now x) (slice_index self.now.present.now x) }
    {
        for (i, weight) in self.held.iter().enumerate() {
            sources[i] = source_of(*weight, self.present[i]);
        }
    }
}

/// Goes through a batch in order, and notes where each standing of its pool stands: of each link before the batch, of the
/// link of each change after that change, and last absent. Refuses the first change that may not be made. The other two
/// tables are for working: where each link's weight stands, and its state.
pub fn trace<W: Ordered>(
    links: &[LinkState<W>],
    batch: &[Change<W>],
    sources: &mut [u32],
    held: &mut [u32],
    present: &mut [u32],
) -> Result<(), DrawFault>
    requires few { (length links.now ≤ 16384) × (length batch.now ≤ 65536) }
    requires room { length sources.old ≡ length links.now + length batch.now + 1 }
    requires tables { (length held.old ≡ length links.now) × (length present.old ≡ length links.now) }
    ensures faults { result ≡ unless (changes_fault 1 links.now batch.now) tt }
    ensures pooled { OnOk result (sourced links.now batch.now sources.new ≡ pool (standings links.now) (moves_of links.now batch.now) ++ Absent ∷ []) }
{
    forests::start(held);
    note_states(links, present);
    let mut tracked = Tracked { held, present };
    tracked.note_sources(sources);
    let m = links.len();
    for (i, change) in batch.iter().enumerate() {
        tracked.check(i as u32 + 1, change)?;
        sources[m + i] = tracked.make(change, (m + i) as u32);
    }
    sources[m + batch.len()] = NOWHERE;
    Ok(())
}

/// The weight that a change sets, as a standing; the other changes set none.
fn set_to<W: Ordered>(change: &Change<W>) -> Standing<W>
    ensures { result ≡ set_to change.now }
{
    match change {
        Change::Set(_, w) => Standing::At(*w),
        _ => Standing::Absent,
    }
}

/// The standings of a pool by index, one for each number of the table of sources.
#[derive(Drop)]
pub struct Pool<'a, 'b, 'c, W: Ordered> {
    pub links: &'a [LinkState<W>],
    pub batch: &'b [Change<W>],
    pub sources: &'c [u32],
}

impl<W: Ordered> Pool<'_, '_, '_, W> {
    /// The standing that the number q tells.
    fn standing_at(&self, q: u32) -> Standing<W>
        ensures { result ≡ told_by (weights_of self.now.links.now self.now.batch.now) q }
    {
        let q = q as usize;
        if q < self.links.len() {
            return Standing::At(self.links[q].weight);
        }
        let j = q - self.links.len();
        if j < self.batch.len() {
            set_to(&self.batch[j])
        } else {
            Standing::Absent
        }
    }

    /// The standing of index i.
    fn standing(&self, i: u32) -> Standing<W>
        requires { i < length self.now.sources.now }
        ensures { result ≡ slice_index_or (sourced self.now.links.now self.now.batch.now self.now.sources.now) i Absent }
    {
        self.standing_at(self.sources[i as usize])
    }
}

impl<W: Ordered> Ranking for Pool<'_, '_, '_, W> {
    ghost count = { λ r. length r.sources.now };

    ghost before = { λ r i j. stands_before W.Ordered.side (sourced r.links.now r.batch.now r.sources.now) i j };

    fn precedes(&self, i: u32, j: u32) -> bool {
        let u = self.standing(i);
        let v = self.standing(j);
        u.side_of(&v) == Side::Before
    }
}

/// Gives each standing of a pool a place: any two places are to each other as the two standings are. The order table is
/// for working.
pub fn place_pool<W: Ordered>(pool: &Pool<'_, '_, '_, W>, order: &mut [u32], places: &mut [u32])
    requires { (length order.old ≡ length pool.now.sources.now) × (length places.old ≡ length pool.now.sources.now) × (length pool.now.sources.now ≤ 2 ^ 32) }
    ensures { (i j : ℕ) → i < length pool.now.sources.now → j < length pool.now.sources.now → compared (slice_index places.new i) (slice_index places.new j) ≡ stand W.Ordered.side (slice_index_or (sourced pool.now.links.now pool.now.batch.now pool.now.sources.now) i Absent) (slice_index_or (sourced pool.now.links.now pool.now.batch.now pool.now.sources.now) j Absent) }
{
    give_places(pool, order, places);
}
