//! What texts tell, how they are refused, and what is printed.
use faults::{DrawFault, OpenFault};
use plan_lines::{EntryLine, Refusal, TreeLine, WorkLine, draw_refusal, open_refusal};
use plant_text::{Plant, Room, Tables, read_plant};
use std::alloc::{AllocError, Global};
use std::process::Abort;
use std::test::Fail;
use weights::Cost;

/// What a text tells, in short: its kind, and how many nodes, links and changes; or the refusal.
fn answer(heap: Global, text: &[u8]) -> Result<String, AllocError> {
    let room = Room::reserve(heap)?;
    match read_plant(room, text) {
        Ok(Plant::Costs(tables)) => counts(heap, 'N', tables),
        Ok(Plant::Classes(tables)) => counts(heap, 'P', tables),
        Err(fault) => Refusal::from(fault).to_string(heap),
    }
}

/// A kind's letter, and how many nodes, links and changes there are.
fn counts<W: Drop>(heap: Global, kind: char, tables: Tables<W>) -> Result<String, AllocError> {
    let n = tables.n;
    let links = tables.links.len();
    let changes = tables.changes.len();
    format!(in heap; "{kind} {n} {links} {changes}")
}

/// Asserts what each text tells.
fn assert_told(rt: &impl Abort, heap: Global, cases: &[(&str, &str)]) -> Result<(), Fail> {
    for (text, told) in cases {
        assert_eq!(rt; answer(heap, text.as_bytes())?.as_str(), *told, "{}", text);
    }
    Ok(())
}

/// Asserts what a first text, and then another so many times, tells.
fn assert_counted(
    rt: &impl Abort,
    heap: Global,
    cases: &[(&str, &str, usize, &str)],
) -> Result<(), Fail> {
    for (first, more, times, told) in cases {
        let text = repeated(heap, first, more, *times)?;
        assert_eq!(rt; answer(heap, text.as_bytes())?.as_str(), *told, "{}", told);
    }
    Ok(())
}

/// A first text, and then another so many times.
fn repeated(heap: Global, first: &str, more: &str, times: usize) -> Result<String, AllocError> {
    let mut text = String::from_str(heap, first)?;
    for _ in 0..times {
        text.push_str(more)?;
    }
    Ok(text)
}

/// Takes the last change away, and leaves its line: tables hold no facts that a reader would have to keep.
fn without_last(mut tables: Tables<Cost>) -> Tables<Cost> {
    let _ = tables.changes.pop();
    tables
}

#[test]
fn tables_may_be_changed(rt: HostRuntime) -> Result<(), Fail> {
    let room = Room::reserve(rt.alloc())?;
    let Ok(Plant::Costs(tables)) = read_plant(room, "N 2\nL 1 2 5\nS 1 9\n".as_bytes()) else {
        return Err(Fail::new("refused"));
    };
    let tables = without_last(tables);
    assert_eq!(rt; counts(rt.alloc(), 'N', tables)?.as_str(), "N 2 1 0");
    Ok(())
}

#[test]
fn texts_are_read(rt: HostRuntime) -> Result<(), Fail> {
    let cases = [
        (
            "N 4\nL 1 2 5\nL 2 3 4\nL 3 4 6\nL 4 1 7\nL 1 3 8\nS 4 3\nR 2\nS 5 6\nT 2\nS 1 9\n",
            "N 4 5 5",
        ),
        ("P 2\nL 1 2 7 4294967295\nS 1 0 900\n", "P 2 1 1"),
        ("N 32\n", "N 32 0 0"),
        ("N 0\n", "N 0 0 0"),
    ];
    assert_told(&rt, rt.alloc(), &cases)
}

#[test]
fn texts_are_refused(rt: HostRuntime) -> Result<(), Fail> {
    let cases = [
        ("", "REFUSED 2 0 1"),
        ("L x\n", "REFUSED 2 0 1"),
        ("\n", "REFUSED 1 0 1"),
        ("N 4", "REFUSED 1 0 1"),
        ("N 33\n", "REFUSED 3 0 1"),
        ("N 4\nN 4\n", "REFUSED 2 0 2"),
        ("N 2\nT 1\nL 1 2 5\n", "REFUSED 2 0 3"),
        ("P 2\nL 1 2 8 5\n", "REFUSED 1 0 2"),
        ("N 2\nL 1 2 05\n", "REFUSED 1 0 2"),
        ("N 2\nL 1 2 4294967296\n", "REFUSED 1 0 2"),
        ("N 2\nL 1  2 5\n", "REFUSED 1 0 2"),
        ("N 2\nL 1 2 5 \n", "REFUSED 1 0 2"),
        ("N 2\r\n", "REFUSED 1 0 1"),
        ("N 2\nL 1 2 5\nR 1", "REFUSED 1 0 3"),
    ];
    assert_told(&rt, rt.alloc(), &cases)
}

/// The plant of two nodes, damaged in every way that a transfer or an editor may damage it.
#[test]
fn damaged_texts(rt: HostRuntime) -> Result<(), Fail> {
    let cases = [
        ("whole", "N 2\nL 1 2 5\nS 1 9\n", "N 2 1 1"),
        ("cut in a word", "N 2\nL 1 2 5\nS 1", "REFUSED 1 0 3"),
        ("cut after a space", "N 2\nL 1 2 ", "REFUSED 1 0 2"),
        (
            "cut before the last byte",
            "N 2\nL 1 2 5\nS 1 9",
            "REFUSED 1 0 3",
        ),
        ("cut to its letter", "N", "REFUSED 1 0 1"),
        ("first line lost", "L 1 2 5\nS 1 9\n", "REFUSED 2 0 1"),
        ("first line doubled", "N 2\nN 2\nL 1 2 5\n", "REFUSED 2 0 2"),
        ("link doubled", "N 2\nL 1 2 5\nL 1 2 5\nS 1 9\n", "N 2 2 1"),
        ("lines exchanged", "N 2\nS 1 9\nL 1 2 5\n", "REFUSED 2 0 3"),
        ("line empty", "N 2\n\nL 1 2 5\n", "REFUSED 1 0 2"),
        ("word lost", "N 2\nL 1 2\n", "REFUSED 1 0 2"),
        ("word doubled", "N 2\nL 1 2 5 5\n", "REFUSED 1 0 2"),
        ("words joined", "N 2\nL1 2 5\n", "REFUSED 1 0 2"),
        ("lines joined", "N 2L 1 2 5\n", "REFUSED 1 0 1"),
        ("small letter", "N 2\nl 1 2 5\n", "REFUSED 1 0 2"),
        ("other letter", "N 2\nX 1 2 5\n", "REFUSED 1 0 2"),
        ("tab", "N 2\nL\t1 2 5\n", "REFUSED 1 0 2"),
        ("byte 0", "N 2\nL 1 2 \u{0}\n", "REFUSED 1 0 2"),
        ("bytes over 127", "N 2\nL 1 2 \u{e9}\n", "REFUSED 1 0 2"),
        ("mark of a byte order", "\u{feff}N 2\n", "REFUSED 1 0 1"),
        ("carriage returns", "N 2\r\nL 1 2 5\r\n", "REFUSED 1 0 1"),
        ("sign", "N 2\nL 1 2 -5\n", "REFUSED 1 0 2"),
        ("leading zero", "N 2\nL 1 2 00\n", "REFUSED 1 0 2"),
        (
            "number of 40 digits",
            "N 2\nL 1 2 9999999999999999999999999999999999999999\n",
            "REFUSED 1 0 2",
        ),
        (
            "count of 40 digits",
            "N 9999999999999999999999999999999999999999\n",
            "REFUSED 1 0 1",
        ),
        ("largest count", "N 4294967295\n", "REFUSED 3 0 1"),
    ];
    for (what, text, told) in cases {
        assert_eq!(rt;
            answer(rt.alloc(), text.as_bytes())?.as_str(),
            told,
            "{}",
            what
        );
    }
    Ok(())
}

#[test]
fn counts_are_kept(rt: HostRuntime) -> Result<(), Fail> {
    let cases = [
        ("N 2\n", "L 1 2 5\n", 64, "N 2 64 0"),
        ("N 2\n", "L 1 2 5\n", 65, "REFUSED 3 0 66"),
        ("N 2\n", "T 1\n", 128, "N 2 0 128"),
        ("N 2\n", "T 1\n", 129, "REFUSED 3 0 130"),
        ("", "x", 4096, "REFUSED 1 0 1"),
        ("", "x", 4097, "REFUSED 3 0 0"),
    ];
    assert_counted(&rt, rt.alloc(), &cases)
}

/// A text of line ends: the byte count is looked at before any line.
#[test]
fn line_ends_are_counted(rt: HostRuntime) -> Result<(), Fail> {
    let cases = [
        ("N 2\n", "\n", 4092, "REFUSED 1 0 2"),
        ("N 2\n", "\n", 4093, "REFUSED 3 0 0"),
    ];
    assert_counted(&rt, rt.alloc(), &cases)
}

#[test]
fn lines_are_printed(rt: HostRuntime) -> Result<(), Fail> {
    let heap = rt.alloc();
    assert_eq!(rt;
        TreeLine(&[1, 2, 3]).to_string(heap)?.as_str(),
        "TREE 1 2 3"
    );
    assert_eq!(rt; TreeLine(&[]).to_string(heap)?.as_str(), "TREE");
    let entry = EntryLine {
        change: 1,
        leaving: 3,
        coming: 4,
    };
    assert_eq!(rt; entry.to_string(heap)?.as_str(), "1 3 4");
    assert_eq!(rt; WorkLine(39).to_string(heap)?.as_str(), "WORK 39");
    Ok(())
}

#[test]
fn refusals_have_lines(rt: HostRuntime) -> Result<(), Fail> {
    let heap = rt.alloc();
    let links = [2, 3];
    let changes = [4, 5, 6];
    let opened = [
        (OpenFault::NodeCount, "REFUSED 10 0 1"),
        (OpenFault::EndOutside(2), "REFUSED 13 2 3"),
        (OpenFault::SameEnds(1), "REFUSED 14 1 2"),
        (OpenFault::NotJoined, "REFUSED 15 0 0"),
    ];
    for (fault, told) in opened {
        assert_eq!(rt; open_refusal(fault, &links).to_string(heap)?.as_str(), told);
    }
    let drawn = [
        (DrawFault::NotOpened(OpenFault::NodeCount), "REFUSED 10 0 1"),
        (DrawFault::LinkOutside(1), "REFUSED 22 1 4"),
        (DrawFault::RemoveAbsent(3), "REFUSED 23 3 6"),
        (DrawFault::Parted(2), "REFUSED 24 2 5"),
        (DrawFault::ShortTables, "REFUSED 21 0 0"),
    ];
    for (fault, told) in drawn {
        assert_eq!(rt;
            draw_refusal(fault, &changes, &links)
                .to_string(heap)?
                .as_str(),
            told
        );
    }
    Ok(())
}
