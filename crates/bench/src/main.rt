//! Draws long batches at three sizes and prints the work count beside its bound and a sum over the entries. With the
//! argument `time` it also prints how long each draw took.
#![tactic(auto)]

use faults::Fault;
use network::{Change, Ends, LinkState, Node};
use planner::{Book, Tables};
use std::alloc::{AllocError, Global};
use std::time::Instant;
use std::{env, io};
use weights::Cost;

/// A linear congruential generator: the same numbers in every run. `crosscheck` has the same few lines: a crate for them
/// would be longer.
#[derive(Drop)]
struct Random(u64);

impl Random {
    /// The next number below a limit, or 0.
    fn below(&mut self, limit: u32) -> u32 {
        self.0 = self
            .0
            .wrapping_mul(6364136223846793005)
            .wrapping_add(1442695040888963407);
        let high = (self.0 >> 33) as u32;
        high.checked_rem(limit).unwrap_or(0)
    }
}

/// How large a sample is: n nodes, m links and k changes.
#[derive(Clone, Copy)]
struct Size {
    n: u32,
    m: u32,
    k: u32,
}

/// The sizes that are measured.
const SIZES: [Size; 3] = [
    Size {
        n: 64,
        m: 256,
        k: 512,
    },
    Size {
        n: 512,
        m: 2048,
        k: 8192,
    },
    Size {
        n: 4096,
        m: 16384,
        k: 65536,
    },
];

impl Size {
    /// The ends of link i, counted from 0: a path over all nodes first, then links between any two.
    fn ends(self, random: &mut Random, i: u32) -> Ends {
        if i < self.n.saturating_sub(1) {
            return Ends {
                a: Node(i.saturating_add(1)),
                b: Node(i.saturating_add(2)),
            };
        }
        let a = random.below(self.n).saturating_add(1);
        let b = random.below(self.n).saturating_add(1);
        let next = a.checked_rem(self.n).unwrap_or(0).saturating_add(1);
        let other = if a == b { next } else { b };
        Ends {
            a: Node(a),
            b: Node(other),
        }
    }

    /// A change that keeps the path present: a link of it is only set, any other is set or flipped.
    fn change(self, random: &mut Random) -> Change<Cost> {
        let link = random.below(self.m).saturating_add(1);
        if link >= self.n && random.below(3) == 0 {
            return Change::Flip(link);
        }
        Change::Set(link, Cost(random.below(1_000_000)))
    }

    /// m + k + 4 × k × L, with L least such that 2^L is at least m.
    fn bound(self) -> u64 {
        let m = u64::from(self.m);
        let k = u64::from(self.k);
        let levels = u64::from(m.next_power_of_two().ilog2());
        m.saturating_add(k)
            .saturating_add(k.saturating_mul(4).saturating_mul(levels))
    }
}

fn main(rt: HostRuntime) -> anyhow::Result<()> {
    let timed = env::args(&rt)?.skip(1).any(|word| word.as_str() == "time");
    for size in SIZES {
        measure(&rt, timed, size)?;
    }
    Ok(())
}

/// A network and a batch, made up from its size.
#[derive(Drop)]
struct Sample {
    ends: Vec<Ends>,
    links: Vec<LinkState<Cost>>,
    batch: Vec<Change<Cost>>,
}

impl Sample {
    /// A sample of this size, in which the path keeps all nodes joined.
    fn of(heap: Global, size: Size) -> Result<Sample, AllocError> {
        let mut random = Random(u64::from(size.n));
        let (ends, links) = (0..size.m)
            .map(|i| {
                let ends = size.ends(&mut random, i);
                let weight = Cost(random.below(1_000_000));
                let present = true;
                (ends, LinkState { weight, present })
            })
            .unzip(heap)?;
        let batch = (0..size.k).map(|_| size.change(&mut random)).collect(heap)?;
        Ok(Sample { ends, links, batch })
    }
}

/// Opens a network of this size, draws its changes and prints what came.
fn measure(rt: &HostRuntime, timed: bool, size: Size) -> anyhow::Result<()> {
    let Size { n, m, k } = size;
    let mut sample = Sample::of(rt.alloc(), size)?;
    let mut tree = vec![in rt.alloc(); 0u32; n as usize]?;
    let mut start = vec![in rt.alloc(); 0u32; n as usize]?;
    let mut entries = vec![in rt.alloc(); (0u32, 0u32); k as usize]?;
    let records = (n as usize)
        .saturating_add(m as usize)
        .saturating_add(k as usize);
    let mut work = vec![in rt.alloc(); 0u32; records.saturating_mul(64)]?;
    let tables = Tables {
        n,
        ends: sample.ends.as_slice(),
        links: sample.links.as_mut_slice(),
        tree: tree.as_mut_slice(),
    };
    let mut book = Book::open(tables, work.as_mut_slice());
    let begun = Instant::now(rt)?;
    let drawn = book.draw(
        sample.batch.as_slice(),
        start.as_mut_slice(),
        entries.as_mut_slice(),
        work.as_mut_slice(),
    );
    let took = begun.elapsed(rt)?;
    println!(rt; "{n} nodes, {m} links, {k} changes")?;
    match drawn {
        Ok(plan) => tell(rt, plan.work, size.bound(), checksum(entries.as_slice()))?,
        Err(fault) => println!(rt; "  refused {}", Fault::from(fault).code)?,
    }
    if timed {
        println!(rt; "  {} microseconds", took.as_micros())?;
    }
    Ok(())
}

/// Prints the work count beside its bound, and the sum over the entries.
fn tell(rt: &HostRuntime, count: u64, limit: u64, sum: u64) -> io::Result<()> {
    println!(rt; "  work {count}, at most {limit}; entries {sum}")
}

/// A sum over all numbers of the entries in which each place counts differently.
fn checksum(entries: &[(u32, u32)]) -> u64 {
    entries
        .iter()
        .flat_map(|(leaving, coming)| [*leaving, *coming])
        .fold(0, |sum, number| {
            u64::wrapping_mul(sum, 31).wrapping_add(u64::from(number))
        })
}
