//! A buyer's own weights and hardware behind the two interfaces: rates, of which the larger is before, and a switch that keeps
//! its links as bits in words. Draws a plan, plays it, and draws a second one on the way.
#![tactic(auto)]

mod rates;

use fabric_tests::BitMap;
use faults::Fault;
use installation::{Answer, Batch, Call, Line, Memory, Outcome, perform};
use network::{Change, Ends, LinkState, Node};
use planner::Tables;
use rates::Rate;
use std::io;

fn main(rt: HostRuntime) -> io::Result<()> {
    let ends = [link(1, 2), link(2, 3), link(3, 1)];
    let mut links = [at(100), at(1000), at(10)];
    let changes = [
        Change::Set(3, Rate(500)),
        Change::Remove(2),
        Change::Flip(2),
    ];
    let mut tree = [0u32; 2];
    let mut plans = [None, None];
    let mut start = [0u32; 4];
    let mut entries = [(0u32, 0u32); 4];
    let mut work = [0u32; 512];
    let mut words = [0u32; 1];
    let mut switch = BitMap::blank(3, &mut words);
    let mut log = [
        Call::Open,
        Call::Draw(Batch {
            from: 0,
            to: 2,
            slot: 0,
        }),
        Call::Lay(0),
        Call::Forward,
        Call::Join,
        Call::Draw(Batch {
            from: 2,
            to: 3,
            slot: 1,
        }),
        Call::Forward,
        Call::Join,
        Call::Finish,
        Call::Lay(1),
        Call::Forward,
        Call::Join,
        Call::Finish,
    ]
    .map(Line::new);
    let tables = Tables {
        n: 3,
        ends: &ends,
        links: &mut links,
        tree: &mut tree,
    };
    let mut memory = Memory {
        plans: &mut plans,
        changes: &changes,
        start: &mut start,
        entries: &mut entries,
        work: &mut work,
    };
    let Outcome { tables: _, state } = perform::<Rate, BitMap<'_>>(
        tables,
        &mut memory,
        &mut switch,
        &mut log,
    );
    let _ = state.end();
    for line in log.iter() {
        tell(&rt, line.answer)?;
    }
    println!(rt; "words {}", words[0])
}

// A short name for many literals: a constructor in `network` would be written no shorter at each.
fn link(a: u32, b: u32) -> Ends {
    Ends {
        a: Node(a),
        b: Node(b),
    }
}

fn at(rate: u32) -> LinkState<Rate> {
    LinkState {
        weight: Rate(rate),
        present: true,
    }
}

/// Prints an answer.
fn tell(rt: &HostRuntime, answer: Answer) -> io::Result<()> {
    match answer {
        Answer::NotMade => println!(rt; "not made"),
        Answer::Opened => println!(rt; "opened"),
        Answer::NotOpened(fault) => println!(rt; "refused {}", Fault::from(fault).code),
        Answer::Drew(drawn) => println!(rt; "drew {} changes, work {}", drawn.k, drawn.work),
        Answer::NotDrawn(fault) => println!(rt; "refused {}", Fault::from(fault).code),
        Answer::Granted => println!(rt; "granted"),
        Answer::Refused(fault) => println!(rt; "refused {}", Fault::from(fault).code),
        Answer::Abandoned(leaving, coming) => println!(rt; "abandoned {leaving} {coming}"),
        Answer::Finished(t) => println!(rt; "finished after {t} changes"),
    }
}
