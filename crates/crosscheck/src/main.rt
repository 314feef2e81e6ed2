//! Compares the planner and the player with a second, simple implementation: on plants worked out by hand, at every
//! refusal, on made-up networks and batches, and at the largest sizes. Prints what was compared, and how often the two
//! disagreed.
#![tactic(auto)]

mod cases;
mod compare;
mod failure;
mod group;
mod known;
mod limits;
mod loan;
mod play;
mod random;
mod refusals;
mod simple;
mod sweeps;
mod tally;
mod worked;

use failure::Failure;
use limits::largest_sizes;
use random::Spread;
use refusals::every_refusal;
use sweeps::{Sizes, all_sizes, costs_spread, parallel_links, second_draws};
use tally::Tally;
use weights::{Class, Cost};
use worked::worked_plants;

/// How many networks of each special kind are made up.
const ROUNDS: u32 = 1000;

/// Many small networks.
const SMALL: Sizes = Sizes {
    most_links: 40,
    rounds: 120,
};

/// One network of each size.
const LARGE: Sizes = Sizes {
    most_links: 300,
    rounds: 1,
};

fn main(rt: HostRuntime) -> Result<(), Failure> {
    let heap = rt.alloc();
    let mut report = Report {
        rt: &rt,
        disagreements: 0,
    };
    report.group("worked plants", worked_plants(heap)?)?;
    report.group("refusals", every_refusal(heap)?)?;
    report.group("parallel links", parallel_links(heap, ROUNDS)?)?;
    report.group("level costs", costs_spread(heap, Spread::Level, ROUNDS)?)?;
    report.group(
        "largest costs",
        costs_spread(heap, Spread::Largest, ROUNDS)?,
    )?;
    report.group(
        "second draws by cost",
        second_draws::<Cost>(heap, ROUNDS, 4)?,
    )?;
    report.group(
        "second draws by class",
        second_draws::<Class>(heap, ROUNDS, 5)?,
    )?;
    report.group("small networks by cost", all_sizes::<Cost>(heap, SMALL, 6)?)?;
    report.group(
        "small networks by class",
        all_sizes::<Class>(heap, SMALL, 7)?,
    )?;
    report.group("all sizes by cost", all_sizes::<Cost>(heap, LARGE, 8)?)?;
    report.group("all sizes by class", all_sizes::<Class>(heap, LARGE, 9)?)?;
    report.group("largest sizes", largest_sizes(heap)?)?;
    println!(rt; "{} disagreements", report.disagreements)?;
    Ok(())
}

/// The disagreements of all groups so far.
#[derive(Drop)]
struct Report<'a> {
    rt: &'a HostRuntime,
    disagreements: u64,
}

impl Report<'_> {
    /// Prints the counts of a group, and its first disagreement if there is one.
    fn group(&mut self, name: &str, tally: Tally) -> Result<(), Failure> {
        let rt = self.rt;
        println!(rt; "{name}: {tally}")?;
        if let Some((number, finding)) = tally.first {
            print!(rt; "  {} disagreements, ", tally.disagreements)?;
            println!(rt; "the first at case {number}: {finding}")?;
        }
        self.disagreements = self.disagreements.saturating_add(tally.disagreements);
        Ok(())
    }
}
