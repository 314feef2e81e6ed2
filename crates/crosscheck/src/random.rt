//! Made-up networks and batches, the same in every run.
use crate::cases::{flip, remove};
use crate::simple::forecast::{Case, Lent};
use crate::simple::records::{Action, Change, Link, Weight, apply, index};
use crate::simple::tree::joined;
use std::alloc::{AllocError, Global};

/// A linear congruential generator. `bench` has the same few lines: a crate for them would be longer.
#[derive(Drop)]
pub struct Random(u64);

impl Random {
    pub fn new(seed: u64) -> Random {
        Random(seed)
    }

    /// The next number below a limit, or 0.
    pub fn below(&mut self, limit: u32) -> u32 {
        self.0 = self
            .0
            .wrapping_mul(6364136223846793005)
            .wrapping_add(1442695040888963407);
        let high = (self.0 >> 33) as u32;
        high.checked_rem(limit).unwrap_or(0)
    }

    /// True in one of so many calls.
    pub fn one_in(&mut self, calls: u32) -> bool {
        self.below(calls) == 0
    }
}

/// How costs are spread.
#[derive(Clone, Copy)]
pub enum Spread {
    /// All costs are the same.
    Level,
    /// Few costs, so that many are level.
    Few,
    /// Hardly any two costs are the same.
    Many,
    /// The two largest costs.
    Largest,
}

impl Spread {
    pub fn any(random: &mut Random) -> Spread {
        match random.below(4) {
            0 => Spread::Level,
            1 => Spread::Few,
            2 => Spread::Many,
            _ => Spread::Largest,
        }
    }

    fn cost(self, random: &mut Random) -> u32 {
        match self {
            Spread::Level => 5,
            Spread::Few => random.below(5),
            Spread::Many => random.below(1_000_000_000),
            Spread::Largest => u32::MAX - random.below(2).min(1),
        }
    }
}

/// What a batch may do.
#[derive(Clone, Copy, PartialEq)]
pub enum Care {
    /// Every change leaves all nodes joined.
    Joining,
    /// From some change on they may part the network, and now and then it is not joined at the start.
    Parting,
    /// The same, and one or two changes are faulty.
    Faulty,
}

impl Care {
    pub fn any(random: &mut Random) -> Care {
        match random.below(12) {
            0 | 1 => Care::Parting,
            2 => Care::Faulty,
            _ => Care::Joining,
        }
    }
}

/// How a case is made up: n nodes, m links, k changes of some links in a row, weights of so many classes.
#[derive(Clone, Copy)]
pub struct Recipe {
    pub n: u32,
    pub m: u32,
    pub k: u32,
    /// The first link that is changed, counted from 0, and how many links from there on are.
    pub changed: (u32, u32),
    pub classes: u32,
    pub spread: Spread,
    pub care: Care,
}

// `heap` and `random` come with each call: one generator makes many recipes and goes on through them.
impl Recipe {
    /// Any recipe for m links.
    pub fn any(random: &mut Random, m: u32, classes: u32) -> Recipe {
        let n = match random.below(4) {
            0 => random.below(4).saturating_add(1),
            1 => m.saturating_add(1),
            _ => random.below(m).saturating_add(1),
        };
        let k = match random.below(6) {
            0 => random.below(4),
            1 => m.saturating_add(random.below(3)).saturating_sub(1),
            2 | 3 => random.below(m.saturating_mul(3).saturating_add(3)),
            _ => random.below(m.saturating_add(1)),
        };
        let changed = if random.one_in(3) {
            (random.below(m), random.below(6).saturating_add(1))
        } else {
            (0, m)
        };
        Recipe {
            n: if m == 0 {
                1
            } else {
                n.max(2).min(m.saturating_add(1))
            },
            m,
            k,
            changed,
            classes,
            spread: Spread::any(random),
            care: Care::any(random),
        }
    }

    /// A case made by this recipe.
    pub fn case(&self, heap: Global, random: &mut Random) -> Result<Case, AllocError> {
        let links = self.links(heap, random)?;
        let changes = self.changes(heap, random, links.as_slice())?;
        let lent = self.lent(random, changes.len());
        Ok(Case {
            n: self.n,
            links,
            changes,
            lent,
        })
    }

    fn weight(&self, random: &mut Random) -> Weight {
        Weight {
            class: random.below(self.classes),
            cost: self.spread.cost(random),
        }
    }

    /// The ends of link i, counted from 0: first each node is tied to one before it, then any two nodes.
    fn ends(&self, random: &mut Random, i: u32) -> (u32, u32) {
        let node = i.saturating_add(2);
        if node <= self.n {
            let other = random.below(i.saturating_add(1)).saturating_add(1);
            return if random.one_in(2) {
                (node, other)
            } else {
                (other, node)
            };
        }
        let a = random.below(self.n);
        let step = random.below(self.n.saturating_sub(1)).saturating_add(1);
        let b = a.saturating_add(step).checked_rem(self.n).unwrap_or(0);
        (a.saturating_add(1), b.saturating_add(1))
    }

    /// The links, in any order. One in four of those that are not needed to join all nodes is absent.
    fn links(&self, heap: Global, random: &mut Random) -> Result<Vec<Link>, AllocError> {
        let loose = self.care != Care::Joining && random.one_in(8);
        let needed = if loose { 0 } else { self.n.saturating_sub(1) };
        let mut links: Vec<Link> = (0..self.m)
            .map(|i| self.link(random, i, i < needed))
            .collect(heap)?;
        shuffle(random, links.as_mut_slice());
        Ok(links)
    }

    /// Link i, counted from 0: present, or absent one time in four if it is not needed.
    fn link(&self, random: &mut Random, i: u32, needed: bool) -> Link {
        let (a, b) = self.ends(random, i);
        let weight = self.weight(random);
        Link {
            a,
            b,
            weight,
            present: needed || !random.one_in(4),
        }
    }

    /// The batch.
    fn changes(
        &self,
        heap: Global,
        random: &mut Random,
        links: &[Link],
    ) -> Result<Vec<Change>, AllocError> {
        let mut links = links.to_vec(heap)?;
        let careful = match self.care {
            Care::Joining => self.k,
            Care::Parting | Care::Faulty => random.below(self.k.saturating_add(1)),
        };
        let mut changes: Vec<Change> = (0..self.k)
            .map(|i| self.change(heap, random, links.as_mut_slice(), i < careful))
            .try_collect(heap)?;
        if self.care == Care::Faulty {
            self.spoil(random, changes.as_mut_slice());
        }
        Ok(changes)
    }

    /// Makes one change. A careful one that parts the network becomes a set.
    fn change(
        &self,
        heap: Global,
        random: &mut Random,
        links: &mut [Link],
        careful: bool,
    ) -> Result<Change, AllocError> {
        let (first, count) = self.changed;
        let link = random
            .below(count)
            .saturating_add(first)
            .checked_rem(self.m)
            .unwrap_or(0)
            .saturating_add(1);
        let set = Change {
            link,
            action: Action::Set(self.weight(random)),
        };
        let present = links.get(index(link)).is_some_and(|link| link.present);
        let change = match (random.below(4), present) {
            (0, _) => flip(link),
            (1, true) => remove(link),
            _ => set,
        };
        apply(links, change);
        if careful && !joined(heap, self.n, links)? {
            apply(links, set);
            return Ok(set);
        }
        Ok(change)
    }

    /// Puts one or two faulty changes in: of no link, or removes of one link twice in a row.
    fn spoil(&self, random: &mut Random, changes: &mut [Change]) {
        let at = random.below(self.k) as usize;
        let link = match random.below(5) {
            0 => 0,
            1 => self.m.saturating_add(1),
            2 => u32::MAX,
            _ => random.below(self.m).saturating_add(1),
        };
        for change in changes.iter_mut().skip(at).take(2) {
            *change = remove(link);
        }
    }

    /// Tables as long as needed or a little longer, and now and then one that is too short.
    fn lent(&self, random: &mut Random, k: usize) -> Lent {
        let exact = Lent::exact(self.n as usize, self.m as usize, k);
        let ample = exact.longer(random.below(4) as usize);
        match random.below(160) {
            0 => Lent {
                links: exact.links.saturating_sub(1),
                ..ample
            },
            1 => Lent {
                links: exact.links.saturating_add(1),
                ..ample
            },
            2 => Lent {
                tree: exact.tree.saturating_sub(1),
                ..ample
            },
            3 => Lent {
                open_work: exact.open_work.saturating_sub(1),
                ..ample
            },
            4 => Lent {
                start: exact.start.saturating_sub(1),
                ..ample
            },
            5 => Lent {
                entries: exact.entries.saturating_sub(1),
                ..ample
            },
            6 => Lent {
                draw_work: exact.draw_work.saturating_sub(1),
                ..ample
            },
            _ => ample,
        }
    }
}

/// Puts links into any order.
fn shuffle(random: &mut Random, links: &mut [Link]) {
    let len = links.len();
    // An exchange takes the two places, so the loop goes over places.
    for i in 0..len {
        let j = random.below(len.min(u32::MAX as usize) as u32) as usize;
        if j < len {
            links.swap(i, j);
        }
    }
}
