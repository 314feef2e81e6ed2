//! The line that a refusal prints: its code, its place, and the line of the text that it is about.
ghost use Rattle.std.specs.Prelude.{◌≡◌, Some};
ghost use Rattle.plan_lines.specs.Refusal.{refusal_line, line_of, open_line, text_refusal, open_refusal, draw_refusal};

use faults::{DrawFault, Fault, OpenFault, TextFault};
use std::fmt;

/// A report, and the line of the text that it is about; 0, as it is printed, where it is about no line.
#[derive(Clone, Copy, PartialEq, Eq, Debug)]
pub struct Refusal {
    pub report: Fault,
    pub line: u32,
}

impl fmt::Display for Refusal {
    ghost output = { λ x. Some (refusal_line x) };

    fn fmt<W: fmt::Write>(&self, f: &mut fmt::Formatter<W>) -> fmt::Result {
        let Fault { code, place, .. } = self.report;
        let line = self.line;
        write!(f, "REFUSED {code} {place} {line}")
    }
}

/// The refusal of a text.
impl From<TextFault> for Refusal {
    ghost from_gives = { λ f r. r ≡ text_refusal f };

    fn from(fault: TextFault) -> Refusal {
        let line = match fault {
            TextFault::Malformed(line) | TextFault::OutOfPlace(line) | TextFault::OverCount(line) =>
                line,
        };
        let report = fault.into();
        Refusal { report, line }
    }
}

/// The refusal of an open, where `link_lines` has the line of each link.
pub fn open_refusal(fault: OpenFault, link_lines: &[u32]) -> Refusal
    ensures { result ≡ open_refusal link_lines.now fault }
{
    let line = open_line(fault, link_lines);
    let report = fault.into();
    Refusal { report, line }
}

/// The refusal of a draw, where `change_lines` has the line of each change and `link_lines` that of each link.
pub fn draw_refusal(fault: DrawFault, change_lines: &[u32], link_lines: &[u32]) -> Refusal
    ensures { result ≡ draw_refusal change_lines.now link_lines.now fault }
{
    let line = match fault {
        DrawFault::NotOpened(open) => open_line(open, link_lines),
        DrawFault::ChangeCount | DrawFault::ShortTables => 0,
        DrawFault::LinkOutside(change)
        | DrawFault::RemoveAbsent(change)
        | DrawFault::Parted(change) => line_of(change_lines, change),
    };
    let report = fault.into();
    Refusal { report, line }
}

/// The line that a refused open is about.
fn open_line(fault: OpenFault, link_lines: &[u32]) -> u32
    ensures { result ≡ open_line link_lines.now fault }
{
    match fault {
        OpenFault::NodeCount => 1,
        OpenFault::EndOutside(link) | OpenFault::SameEnds(link) => line_of(link_lines, link),
        OpenFault::LinkCount | OpenFault::ShortTables | OpenFault::NotJoined => 0,
    }
}

/// The line of item k, counted from 1, or 0 where there is no such item.
fn line_of(lines: &[u32], k: u32) -> u32
    ensures { result ≡ line_of lines.now k }
{
    k.checked_sub(1)
        .and_then(|i| lines.get(i as usize).copied())
        .unwrap_or(0)
}
