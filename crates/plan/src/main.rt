//! The text tool: reads a plant from standard input and prints its plan, or the refusal. Ends with status 0 for a plan and
//! 1 for a refusal.
#![tactic(auto)]

use plan_lines::{EntryLine, Refusal, TreeLine, WorkLine, draw_refusal};
use planner::{Book, Tables};
use plant_text::{Plant, Room, read_plant};
use std::io::Read;
use std::process::ExitCode;
use weights::Weight;

/// Bytes enough to tell that a text is too long.
const ENOUGH: u64 = 4097;

// `shift` begins alike: the library of texts reads no input, and no closure is generic over the kind of weights.
fn main(rt: HostRuntime) -> anyhow::Result<ExitCode> {
    let mut input = Vec::new(rt.alloc());
    rt.stdin().take(ENOUGH).read_to_end(&mut input)?;
    let room = Room::reserve(rt.alloc())?;
    match read_plant(room, &input) {
        Ok(Plant::Costs(plant)) => tell(&rt, plant),
        Ok(Plant::Classes(plant)) => tell(&rt, plant),
        Err(fault) => refuse(&rt, fault.into()),
    }
}

/// Opens a plant's network, draws its changes and prints the plan.
fn tell<W: Weight>(rt: &HostRuntime, plant: plant_text::Tables<W>) -> anyhow::Result<ExitCode> {
    let plant_text::Tables {
        n,
        ends,
        mut links,
        link_lines,
        changes,
        change_lines,
    } = plant;
    let nodes = n as usize;
    let size = nodes
        .saturating_add(links.len())
        .saturating_add(changes.len());
    let mut tree = vec![in rt.alloc(); 0u32; nodes]?;
    let mut start = vec![in rt.alloc(); 0u32; nodes.saturating_sub(1)]?;
    let mut entries = vec![in rt.alloc(); (0u32, 0u32); changes.len()]?;
    let mut work = vec![in rt.alloc(); 0u32; size.saturating_mul(64)]?;
    let tables = Tables {
        n,
        ends: &ends,
        links: &mut links,
        tree: &mut tree,
    };
    let mut book = Book::open(tables, &mut work);
    // A book whose open is refused refuses the draw with the same report.
    match book.draw(&changes, &mut start, &mut entries, &mut work) {
        Ok(drawn) => print_plan(rt, &start, &entries, drawn.work),
        Err(fault) => refuse(rt, draw_refusal(fault, &change_lines, &link_lines)),
    }
}

/// Prints the start tree, an entry for each change, and the work count.
fn print_plan(
    rt: &HostRuntime,
    start: &[u32],
    entries: &[(u32, u32)],
    work: u64,
) -> anyhow::Result<ExitCode> {
    println!(rt; "{}", TreeLine(start))?;
    for (change, &(leaving, coming)) in (1u32..).zip(entries) {
        let line = EntryLine {
            change,
            leaving,
            coming,
        };
        println!(rt; "{line}")?;
    }
    println!(rt; "{}", WorkLine(work))?;
    Ok(ExitCode::SUCCESS)
}

/// Prints a refusal, and ends as one.
fn refuse(rt: &HostRuntime, refusal: Refusal) -> anyhow::Result<ExitCode> {
    println!(rt; "{refusal}")?;
    Ok(ExitCode::FAILURE)
}
