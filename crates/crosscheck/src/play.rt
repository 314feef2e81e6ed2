//! Plays a plan on both makes of fabric, and compares which links carry with the trees of the second implementation.
ghost use Rattle.std.specs.Iterator.{IsFinite};

use crate::failure::Failure;
use crate::group::Group;
use crate::simple::forecast;
use crate::simple::tree::Forest;
use crate::tally::{Finding, Tally};
use fabrics::{Fabric, LinkMap};
use faults::{Fault, Layer, PlayerFault};
use network::Ends;
use player::{Between, Kept, Plan, Steady, lay};
use ports::PortTable;

/// What stands in the memory of a fabric before it is made.
const BLANK: u8 = 0xa5;

/// How many bytes there are beyond what a fabric needs.
const SPARE: usize = 3;

/// Every so many moments a change is begun and cancelled before it is made.
const CANCEL_EACH: usize = 7;

/// Plays a plan forward to its end and back, on a link map and on a port table.
pub fn play(
    group: &mut Group,
    plan: &Plan,
    ends: &[Ends],
    trees: &forecast::Plan,
) -> Result<(), Failure> {
    // Each make borrows memory of its own and is made from other parts, so one function for both would be longer.
    let m = ends.len();
    let mut bytes = vec![in group.heap; BLANK; m.saturating_add(SPARE)]?;
    let map = LinkMap::blank(plan.m, bytes.as_mut_slice());
    // A tour holds the plan and the trees for a shorter time, so they are lent again.
    Tour::play(&*plan, map, &*trees, &mut group.tally);
    group
        .tally
        .expect(rest_stands(bytes.as_slice(), m), Finding::Memory);
    let size = (plan.n as usize)
        .saturating_mul(2)
        .saturating_add(m.saturating_mul(4));
    let mut cells = vec![in group.heap; BLANK; size.saturating_add(SPARE)]?;
    let table = PortTable::blank(plan.n, ends, cells.as_mut_slice());
    Tour::play(&*plan, table, &*trees, &mut group.tally);
    group
        .tally
        .expect(rest_stands(cells.as_slice(), size), Finding::Memory);
    Ok(())
}

/// Whether exactly the links that two trees have in common carry. The common links go along, so that none is searched for.
fn carries_common<F: Fabric>(fabric: &F, one: &Forest, other: &Forest) -> bool {
    let mut common = one.common(other);
    let mut next = common.next().copied();
    let mut same = true;
    for link in 1..=fabric.size() {
        let wanted = next == Some(link);
        if wanted {
            next = common.next().copied();
        }
        same &= fabric.look(link) == Ok(wanted);
    }
    same
}

/// Whether nothing was written past the first bytes.
fn rest_stands(bytes: &[u8], used: usize) -> bool {
    bytes.iter().skip(used).all(|byte| *byte == BLANK)
}

/// Why a tour was broken off.
#[derive(Clone, Copy, PartialEq)]
struct Broken(PlayerFault);

impl From<PlayerFault> for Broken {
    fn from(fault: PlayerFault) -> Broken {
        Broken(fault)
    }
}

/// Ends a refused player.
// One impl for each state: the two end by methods of different names, and a trait over them would be longer.
impl From<Kept<Steady>> for Broken {
    fn from(kept: Kept<Steady>) -> Broken {
        let Kept { player, fault } = kept;
        let _ = player.finish();
        Broken(fault)
    }
}

/// Ends a player that was refused between.
impl From<Kept<Between>> for Broken {
    fn from(kept: Kept<Between>) -> Broken {
        let Kept { player, fault } = kept;
        let _ = player.abandon();
        Broken(fault)
    }
}

/// A way through a plan.
trait Way {
    /// The moment that the way leads to.
    fn after(t: usize) -> usize;

    /// The last moment of a plan on this way.
    fn last(plan: &Plan) -> u32;

    /// Sets out on a change.
    fn set_out<F: Fabric>(
        player: Steady,
        plan: &Plan,
        fabric: &mut F,
    ) -> Result<Between, Kept<Steady>>;
}

/// Forward to the next moment.
struct Forward;

impl Way for Forward {
    fn after(t: usize) -> usize {
        t.saturating_add(1)
    }

    fn last(plan: &Plan) -> u32 {
        plan.k
    }

    fn set_out<F: Fabric>(
        player: Steady,
        plan: &Plan,
        fabric: &mut F,
    ) -> Result<Between, Kept<Steady>> {
        player.forward(plan, fabric)
    }
}

/// Backward to the moment before.
struct Backward;

impl Way for Backward {
    fn after(t: usize) -> usize {
        t.saturating_sub(1)
    }

    fn last(_plan: &Plan) -> u32 {
        0
    }

    fn set_out<F: Fabric>(
        player: Steady,
        plan: &Plan,
        fabric: &mut F,
    ) -> Result<Between, Kept<Steady>> {
        player.backward(plan, fabric)
    }
}

/// A plan that is played on a fabric, and the trees that what carries is compared with.
#[derive(Drop)]
struct Tour<'a, 's, 'e, F: Drop> {
    plan: &'a Plan<'s, 'e>,
    fabric: F,
    trees: &'a forecast::Plan,
    tally: &'a mut Tally,
}

impl<'a, 's, 'e, F: Fabric + Drop> Tour<'a, 's, 'e, F> {
    /// Lays a plan and plays it.
    fn play(plan: &'a Plan<'s, 'e>, fabric: F, trees: &'a forecast::Plan, tally: &'a mut Tally) {
        let mut tour = Tour {
            plan,
            fabric,
            trees,
            tally,
        };
        let back = tour.there_and_back();
        tour.tally.expect(back == Ok(0), Finding::Player);
        let again = tour.begun_again();
        tour.tally.expect(again.is_ok(), Finding::Player);
    }

    /// Compares what carries with the links that the trees of two moments have in common.
    fn compare_carrying(&mut self, one: usize, other: usize) {
        let Tour {
            fabric,
            trees,
            tally,
            ..
        } = self;
        tally.count_moment();
        let same = match (trees.trees.get(one), trees.trees.get(other)) {
            (Some(one), Some(other)) => carries_common(fabric, one, other),
            _ => false,
        };
        tally.expect(same, Finding::Carrying);
    }

    /// Lays a plan, makes all changes and takes them back. Tells the moment at the end.
    fn there_and_back(&mut self) -> Result<u32, Broken> {
        let k = self.plan.k as usize;
        let player = lay(self.plan, &mut self.fabric)?;
        self.compare_carrying(0, 0);
        let player = self.go::<Forward, _>(player, 0..k, 3)?;
        let player = self.go::<Backward, _>(player, (1..=k).rev(), 5)?;
        Ok(player.finish())
    }

    /// Makes or takes back the change at each of these moments, and finds that there is none after them. Now and then a
    /// change is begun and cancelled first.
    fn go<W: Way, I: Iterator<Item = usize> + Drop>(
        &mut self,
        player: Steady,
        moments: I,
        cancel_at: usize,
    ) -> Result<Steady, Broken>
        requires can { I.can_next moments }
        requires ends { IsFinite (I.remaining moments) }
    {
        let mut player = player;
        for t in moments {
            if t % CANCEL_EACH == cancel_at {
                self.tally.count_cancel();
                player = self.change::<W, _>(player, t, t, |between, fabric| {
                    between.cancel(fabric)
                })?;
            }
            player = self.change::<W, _>(player, t, W::after(t), |between, fabric| {
                between.join(fabric)
            })?;
        }
        self.no_way_on::<W>(player)
    }

    /// Sets out on a change from moment t, and ends it so that the player is steady at the moment `to`.
    fn change<W: Way, E: FnOnce(Between, &mut F) -> Result<Steady, Kept<Between>>>(
        &mut self,
        player: Steady,
        t: usize,
        to: usize,
        ending: E,
    ) -> Result<Steady, Broken>
        requires { E.IsAlwaysCallable ending }
    {
        let between = W::set_out(player, self.plan, &mut self.fabric)?;
        self.compare_carrying(t, W::after(t));
        let steady = ending(between, &mut self.fabric)?;
        self.compare_carrying(to, to);
        Ok(steady)
    }

    /// Past either end of a plan there is no entry.
    fn no_way_on<W: Way>(&mut self, player: Steady) -> Result<Steady, Broken> {
        let moment = W::last(self.plan);
        match W::set_out(player, self.plan, &mut self.fabric) {
            Ok(between) => {
                let _ = between.abandon();
                Err(Broken(PlayerFault::NoEntry(moment)))
            }
            Err(kept) => {
                let Kept { player, fault } = kept;
                let wanted = Fault {
                    layer: Layer::Player,
                    code: 32,
                    place: moment,
                };
                self.tally
                    .expect(Fault::from(fault) == wanted, Finding::Player);
                Ok(player)
            }
        }
    }

    /// Lays the plan again where its start list carries, begins the first change if there is one, and abandons it.
    fn begun_again(&mut self) -> Result<(), Broken> {
        let player = lay(self.plan, &mut self.fabric)?;
        self.compare_carrying(0, 0);
        let Some(entry) = self.trees.entries.first() else {
            let _ = player.finish();
            return Ok(());
        };
        let between = player.forward(self.plan, &mut self.fabric)?;
        self.compare_carrying(0, 1);
        let abandoned = between.abandon();
        self.tally.expect(abandoned == *entry, Finding::Player);
        Ok(())
    }
}
