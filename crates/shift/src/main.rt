//! Reads a plant from standard input, draws its changes and plays the plan forward to its end and back, first on a link map
//! and then on a port table. Prints each call, what it answered, what left or came, and which links carry after it.
#![tactic(auto)]

use anyhow::anyhow;
use fabrics::{Fabric, LinkMap};
use faults::Fault;
use installation::{Answer, Batch, Call, Line, Memory, Seat, State, resume};
use plan_lines::Refusal;
use planner::{Book, Tables};
use plant_text::{Plant, Room, read_plant};
use ports::PortTable;
use std::alloc::{AllocError, Global};
use std::io::Read;
use std::{fmt, io};
use weights::Weight;

/// Bytes enough to tell that a text is too long.
const ENOUGH: u64 = 4097;

// As the text tool begins: the library of texts reads no input, and no closure is generic over the kind of weights.
fn main(rt: HostRuntime) -> anyhow::Result<()> {
    let mut input = Vec::new(rt.alloc());
    rt.stdin().take(ENOUGH).read_to_end(&mut input)?;
    let room = Room::reserve(rt.alloc())?;
    match read_plant(room, input.as_slice()) {
        Ok(Plant::Costs(plant)) => on_both(&rt, &plant),
        Ok(Plant::Classes(plant)) => on_both(&rt, &plant),
        Err(fault) => refuse(&rt, fault.into()),
    }
}

/// Plays a plant's changes on a blank link map, and then on a blank port table.
fn on_both<W: Weight>(rt: &HostRuntime, plant: &plant_text::Tables<W>) -> anyhow::Result<()> {
    let nodes = plant.n as usize;
    let m = plant.links.len();
    let size = nodes.saturating_mul(2).saturating_add(m.saturating_mul(4));
    let mut bytes = vec![in rt.alloc(); 0u8; size]?;
    println!(rt; "LINK MAP")?;
    let m = u32::try_from(m).unwrap_or(u32::MAX);
    let mut map = LinkMap::blank(m, bytes.as_mut_slice());
    play(rt, plant, &mut map)?;
    println!(rt; "PORT TABLE")?;
    let mut table = PortTable::blank(plant.n, plant.ends.as_slice(), bytes.as_mut_slice());
    play(rt, plant, &mut table)
}

/// Opens a plant's network, and plays its changes on a fabric.
fn play<W: Weight, F: Fabric>(
    rt: &HostRuntime,
    plant: &plant_text::Tables<W>,
    fabric: &mut F,
) -> anyhow::Result<()> {
    let nodes = plant.n as usize;
    let k = plant.changes.len();
    let size = nodes.saturating_add(plant.ends.len()).saturating_add(k);
    let mut links = plant.links.as_slice().to_vec(rt.alloc())?;
    let mut tree = vec![in rt.alloc(); 0u32; nodes]?;
    let mut plans = [None];
    let mut start = vec![in rt.alloc(); 0u32; nodes]?;
    let mut entries = vec![in rt.alloc(); (0u32, 0u32); k]?;
    let mut work = vec![in rt.alloc(); 0u32; size.saturating_mul(64)]?;
    let tables = Tables {
        n: plant.n,
        ends: plant.ends.as_slice(),
        links: links.as_mut_slice(),
        tree: tree.as_mut_slice(),
    };
    let mut book = Book::open(tables, work.as_mut_slice());
    // The code is printed before the program ends as refused, so `?` would be no plainer.
    if let Some(fault) = book.refusal() {
        println!(rt; "open: refused {}", Fault::from(fault).code)?;
        return Err(anyhow!("refused"));
    }
    let mut memory = Memory {
        plans: &mut plans,
        changes: plant.changes.as_slice(),
        start: start.as_mut_slice(),
        entries: entries.as_mut_slice(),
        work: work.as_mut_slice(),
    };
    make_calls(rt, &mut book, &mut memory, fabric)
}

/// Draws, lays, and plays forward to the end and back.
fn make_calls<W: Weight, F: Fabric>(
    rt: &HostRuntime,
    book: &mut Book<W>,
    memory: &mut Memory<W>,
    fabric: &mut F,
) -> anyhow::Result<()> {
    let calls = calls_of(rt.alloc(), memory.changes.len())?;
    let mut state = State {
        seat: Seat::Free,
        slot: 0,
    };
    let mut tally = Tally::default();
    let mut step = Step::default();
    for call in calls.as_slice() {
        step = step.after(*call, memory.entries);
        let mut log = [Line::new(*call)];
        state = resume::<W, F>(state, book, memory, fabric, &mut log);
        tally.count(log[0].answer);
        let _ = tell(rt, log[0], step, fabric);
    }
    let _ = state.end();
    println!(rt;
        "{} calls granted, {} refused or not made",
        tally.granted, tally.refused
    )?;
    Ok(())
}

/// How many calls were granted, and how many were not.
#[derive(Drop, Default)]
struct Tally {
    granted: u32,
    refused: u32,
}

impl Tally {
    fn count(&mut self, answer: Answer) {
        match answer {
            Answer::NotMade | Answer::NotOpened(_) | Answer::NotDrawn(_) | Answer::Refused(_) => {
                self.refused = self.refused.saturating_add(1);
            }
            _ => self.granted = self.granted.saturating_add(1),
        }
    }
}

/// Draw, lay, each change forward, each change back, finish.
fn calls_of(heap: Global, k: usize) -> Result<Vec<Call>, AllocError> {
    let mut calls = Vec::new(heap);
    calls.push(Call::Draw(Batch {
        from: 0,
        to: k,
        slot: 0,
    }))?;
    calls.push(Call::Lay(0))?;
    for way in [Call::Forward, Call::Backward] {
        for _ in 0..k {
            calls.push(way)?;
            calls.push(Call::Join)?;
        }
    }
    calls.push(Call::Finish)?;
    Ok(calls)
}

/// A step of the plan: the moment that it leads to, and the links that leave and come.
#[derive(Clone, Copy, Default)]
struct Step {
    to: usize,
    leaving: Option<u32>,
    coming: Option<u32>,
}

impl Step {
    /// The step that is under way after a call: forward and backward begin one where the last one led to. Backward leads
    /// to the moment before, leaving and coming exchanged.
    fn after(self, call: Call, entries: &[(u32, u32)]) -> Step {
        match call {
            Call::Forward => {
                let (leaving, coming) = links_of(entries, self.to);
                Step {
                    to: self.to.saturating_add(1),
                    leaving,
                    coming,
                }
            }
            Call::Backward => {
                let to = self.to.saturating_sub(1);
                let (coming, leaving) = links_of(entries, to);
                Step {
                    to,
                    leaving,
                    coming,
                }
            }
            _ => self,
        }
    }
}

/// The links of an entry of the plan, in which 0 stands for none.
fn links_of(entries: &[(u32, u32)], change: usize) -> (Option<u32>, Option<u32>) {
    let (leaving, coming) = entries.get(change).copied().unwrap_or((0, 0));
    (
        (leaving != 0).then_some(leaving),
        (coming != 0).then_some(coming),
    )
}

/// Prints a granted call of a player.
fn tell_step(rt: &HostRuntime, call: Call, step: Step) -> io::Result<()> {
    match call {
        Call::Forward | Call::Backward => {
            print!(rt; "{call} to {}: {} leaves;", step.to, Named(step.leaving))
        }
        Call::Join => print!(rt; "{call}: {} comes;", Named(step.coming)),
        _ => print!(rt; "{call}: granted;"),
    }
}

/// A link by its number, or nothing.
#[derive(Drop)]
struct Named(Option<u32>);

impl fmt::Display for Named {
    fn fmt<W: fmt::Write>(&self, f: &mut fmt::Formatter<W>) -> fmt::Result {
        match self.0 {
            Some(link) => write!(f, "{link}"),
            None => write!(f, "nothing"),
        }
    }
}

/// Prints a call, what it answered, and which links carry.
fn tell<F: Fabric>(rt: &HostRuntime, line: Line, step: Step, fabric: &F) -> io::Result<()> {
    let Line { call, answer } = line;
    match answer {
        Answer::NotMade => print!(rt; "{call}: not made;")?,
        Answer::Opened => print!(rt; "{call}: granted;")?,
        Answer::NotOpened(fault) => print!(rt; "{call}: refused {};", Fault::from(fault).code)?,
        Answer::Drew(drawn) => print!(rt; "{call}: {} changes, work {};", drawn.k, drawn.work)?,
        Answer::NotDrawn(fault) => print!(rt; "{call}: refused {};", Fault::from(fault).code)?,
        Answer::Granted => tell_step(rt, call, step)?,
        Answer::Refused(fault) => print!(rt; "{call}: refused {};", Fault::from(fault).code)?,
        Answer::Abandoned(leaving, coming) => print!(rt; "{call}: {leaving} {coming};")?,
        Answer::Finished(t) => print!(rt; "{call}: after {t} changes;")?,
    }
    print!(rt; " carrying")?;
    for link in 1..=fabric.size() {
        if let Ok(true) = fabric.look(link) {
            print!(rt; " {link}")?;
        }
    }
    println!(rt; "")
}

/// Prints a refusal, and ends as one.
fn refuse(rt: &HostRuntime, refusal: Refusal) -> anyhow::Result<()> {
    println!(rt; "{refusal}")?;
    Err(anyhow!("refused"))
}
