//! Groups of made-up cases.
ghost use Rattle.std.specs.Iterator.{IsFinite};

use crate::cases::case;
use crate::failure::Failure;
use crate::group::Group;
use crate::loan::Kind;
use crate::random::{Care, Random, Recipe, Spread};
use crate::simple::forecast::Case;
use crate::tally::Tally;
use std::alloc::Global;
use std::iter::repeat_n;
use weights::Cost;

/// A group of cases that are made up with this seed: for each number of links a recipe for the weight kind W, and a
/// closure that makes a case by it and compares it.
fn sweep<
    W: Kind,
    I: Iterator<Item = u32>,
    F: FnMut(&mut Group, &mut Random, Recipe) -> Result<(), Failure>,
>(heap: Global, seed: u64, sizes: I, mut each: F) -> Result<Tally, Failure>
    requires can { I.can_next sizes }
    requires ends { IsFinite (I.remaining sizes) }
    requires callable { F.IsAlwaysCallable each }
{
    let mut group = Group::new(heap);
    let mut random = Random::new(seed);
    for m in sizes {
        let recipe = Recipe::any(&mut random, m, W::CLASSES);
        each(&mut group, &mut random, recipe)?;
    }
    Ok(group.tally)
}

impl Group {
    /// Makes a case by a recipe, and compares it.
    fn compare_made<W: Kind>(
        &mut self,
        random: &mut Random,
        recipe: Recipe,
    ) -> Result<(), Failure> {
        let case = recipe.case(self.heap, random)?;
        let _ = self.compare::<W>(&case)?;
        Ok(())
    }

    /// The same in two draws from one book: the batch is cut anywhere.
    fn compare_cut<W: Kind>(&mut self, random: &mut Random, recipe: Recipe) -> Result<(), Failure> {
        let Case {
            n,
            links,
            changes,
            lent: _,
        } = recipe.case(self.heap, random)?;
        let cut = random.below(recipe.k.saturating_add(1)) as usize;
        let (front, further) = changes.as_slice().split_at(cut.min(changes.len()));
        let first = case(self.heap, n, links.as_slice(), front)?;
        let _ = self.compare_second::<W>(&first, further)?;
        Ok(())
    }
}

/// Networks of two or three nodes, in which most links have another beside them.
pub fn parallel_links(heap: Global, rounds: u32) -> Result<Tally, Failure> {
    let sizes = (0..rounds).map(|round| round % 12 + 2);
    sweep::<Cost, _, _>(heap, 1, sizes, |group, random, any| {
        let recipe = Recipe {
            n: any.m % 2 + 2,
            ..any
        };
        group.compare_made::<Cost>(random, recipe)
    })
}

/// Networks with costs of this spread, present and absent.
pub fn costs_spread(heap: Global, spread: Spread, rounds: u32) -> Result<Tally, Failure> {
    let sizes = (0..rounds).map(|round| round % 30 + 1);
    sweep::<Cost, _, _>(heap, 2, sizes, |group, random, any| {
        let recipe = Recipe {
            spread,
            care: Care::Joining,
            ..any
        };
        group.compare_made::<Cost>(random, recipe)
    })
}

/// How many networks are made up for each number of links up to a largest.
#[derive(Clone, Copy)]
pub struct Sizes {
    pub most_links: u32,
    pub rounds: usize,
}

/// Networks of all sizes, of the weight kind W.
pub fn all_sizes<W: Kind>(heap: Global, sizes: Sizes, seed: u64) -> Result<Tally, Failure> {
    let Sizes { most_links, rounds } = sizes;
    let sizes = (0..=most_links).flat_map(|m| repeat_n(m, rounds));
    sweep::<W, _, _>(heap, seed, sizes, |group, random, recipe| {
        group.compare_made::<W>(random, recipe)
    })
}

/// Two draws from one book, of the weight kind W.
pub fn second_draws<W: Kind>(heap: Global, rounds: u32, seed: u64) -> Result<Tally, Failure> {
    let sizes = (0..rounds).map(|round| round % 30 + 1);
    sweep::<W, _, _>(heap, seed, sizes, |group, random, recipe| {
        group.compare_cut::<W>(random, recipe)
    })
}
