//! An installation at work on a link map: the plant of four switches, with slots for two plans.
#![tactic(auto)]

#[cfg(test)]
mod tests {
    use fabrics::LinkMap;
    use faults::Fault;
    use installation::{Answer, Batch, Call, Line, Memory, Outcome, perform};
    use network::{Change, Ends, LinkState, Node};
    use planner::Tables;
    use std::process::Abort;
    use weights::Cost;

    // A short name for many literals: a constructor in `network` would be written no shorter at each.
    fn ends(a: u32, b: u32) -> Ends {
        Ends {
            a: Node(a),
            b: Node(b),
        }
    }

    fn link(cost: u32) -> LinkState<Cost> {
        LinkState {
            weight: Cost(cost),
            present: true,
        }
    }

    // Numbers, so that a log's expected answers stand in one line.
    // What an answer says in short: the code of a refusal, 0 for a call that was not made, 1 for a granted one, 100 and the
    // work count for a draw, 1000 and the moment for finish.
    fn short(answer: Answer) -> u64 {
        match answer {
            Answer::NotMade => 0,
            Answer::Opened => 1,
            Answer::NotOpened(fault) => u64::from(Fault::from(fault).code),
            Answer::Drew(drawn) => drawn.work.saturating_add(100),
            Answer::NotDrawn(fault) => u64::from(Fault::from(fault).code),
            Answer::Granted => 1,
            Answer::Refused(fault) => u64::from(Fault::from(fault).code),
            Answer::Abandoned(leaving, coming) => u64::from(leaving)
                .saturating_mul(10)
                .saturating_add(u64::from(coming)),
            Answer::Finished(t) => u64::from(t).saturating_add(1000),
        }
    }

    // The changes of the plant: those of the first plan, and the way back to the start as a second.
    fn changes() -> [Change<Cost>; 9] {
        [
            Change::Set(4, Cost(3)),
            Change::Remove(2),
            Change::Set(5, Cost(6)),
            Change::Flip(2),
            Change::Set(1, Cost(9)),
            Change::Set(1, Cost(5)),
            Change::Set(4, Cost(7)),
            Change::Remove(9),
            Change::Remove(1),
        ]
    }

    // Performs a log on the plant, with nodes numbered to n: the answers in short, and the bytes of the link map.
    fn performed(rt: &impl Abort, n: u32, log: &mut [Line], expected: &[u64], carrying: [u8; 5]) {
        let net = [ends(1, 2), ends(2, 3), ends(3, 4), ends(4, 1), ends(1, 3)];
        let mut links = [link(5), link(4), link(6), link(7), link(8)];
        let mut tree = [0u32; 3];
        let mut plans = [None, None];
        let mut start = [0u32; 6];
        let mut entries = [(0u32, 0u32); 10];
        let mut work = [0u32; 896];
        let mut bytes = [9u8; 5];
        let mut map = LinkMap::blank(5, &mut bytes);
        let tables = Tables {
            n,
            ends: &net,
            links: &mut links,
            tree: &mut tree,
        };
        let mut memory = Memory {
            plans: &mut plans,
            changes: &changes(),
            start: &mut start,
            entries: &mut entries,
            work: &mut work,
        };
        let Outcome { tables: _, state } = perform::<Cost, LinkMap<'_>>(
            tables,
            &mut memory,
            &mut map,
            log,
        );
        let _ = state.end();
        assert_eq!(rt; log.len(), expected.len());
        for (line, wanted) in log.iter().zip(expected) {
            assert_eq!(rt; short(line.answer), *wanted);
        }
        assert_eq!(rt; bytes, carrying);
    }

    fn draw(from: usize, to: usize, slot: usize) -> Call {
        Call::Draw(Batch { from, to, slot })
    }

    #[test]
    fn all_nine_calls(rt: HostRuntime) {
        let mut log = [
            Call::Open,
            draw(0, 5, 0),
            Call::Lay(0),
            Call::Forward,
            Call::Join,
            Call::Forward,
            Call::Cancel,
            Call::Backward,
            Call::Join,
            Call::Finish,
            Call::Lay(0),
            Call::Forward,
            Call::Abandon,
        ]
        .map(Line::new);
        performed(
            &rt,
            4,
            &mut log,
            &[1, 139, 1, 1, 1, 1, 1, 1, 1, 1000, 1, 1, 34],
            [1, 1, 0, 0, 0],
        );
    }

    // Calls that the state does not allow are not made.
    #[test]
    fn not_made(rt: HostRuntime) {
        let mut log = [
            draw(0, 5, 0),
            Call::Lay(0),
            Call::Join,
            Call::Open,
            Call::Open,
            Call::Forward,
            Call::Lay(0),
            draw(0, 5, 2),
            draw(3, 2, 0),
            draw(0, 10, 0),
            Call::Finish,
        ]
        .map(Line::new);
        performed(
            &rt,
            4,
            &mut log,
            &[0, 0, 0, 1, 0, 0, 0, 0, 0, 0, 0],
            [0, 0, 0, 0, 0],
        );
    }

    // A second plan is drawn while the first is played, and into the other slot only.
    #[test]
    fn second_plan(rt: HostRuntime) {
        let mut log = [
            Call::Open,
            draw(0, 1, 0),
            Call::Lay(0),
            draw(6, 7, 0),
            draw(6, 7, 1),
            Call::Forward,
            Call::Join,
            Call::Forward,
            Call::Finish,
            Call::Lay(0),
            Call::Lay(1),
            Call::Forward,
            Call::Join,
            Call::Finish,
        ]
        .map(Line::new);
        performed(
            &rt,
            4,
            &mut log,
            &[1, 105, 1, 0, 105, 1, 1, 32, 1001, 31, 1, 1, 1, 1001],
            [1, 1, 1, 0, 0],
        );
    }

    // Refusals of open, draw and lay change nothing.
    #[test]
    fn refused(rt: HostRuntime) {
        let mut log = [Call::Open, Call::Open, draw(0, 5, 0)].map(Line::new);
        performed(&rt, 0, &mut log, &[10, 10, 0], [0, 0, 0, 0, 0]);
        let mut log = [Call::Open, draw(0, 5, 0)].map(Line::new);
        performed(&rt, 5, &mut log, &[12, 0], [0, 0, 0, 0, 0]);
        let mut log = [
            Call::Open,
            draw(7, 8, 0),
            Call::Lay(0),
            draw(0, 5, 0),
            Call::Lay(1),
            Call::Lay(0),
        ]
        .map(Line::new);
        performed(&rt, 4, &mut log, &[1, 22, 0, 139, 0, 1], [1, 1, 1, 0, 0]);
    }
}
