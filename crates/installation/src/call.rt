//! The calls on an installation.
ghost use Rattle.std.specs.Prelude.{◌≡◌, Some};
ghost use Rattle.installation.specs.Names.{name};

use promise::Answer;
use std::fmt;

/// What is drawn: the changes from one place up to another of the lent list. The plan goes into a slot; they are numbered
/// from 0.
#[derive(Clone, Copy)]
pub struct Batch {
    pub from: usize,
    pub to: usize,
    pub slot: usize,
}

/// One of the nine calls.
#[derive(Clone, Copy)]
pub enum Call {
    /// Opens the network in the lent tables.
    Open,
    /// Draws a plan.
    Draw(Batch),
    /// Lays the plan that was last drawn into a slot.
    Lay(usize),
    /// Takes the next entry.
    Forward,
    /// Takes the last entry back.
    Backward,
    /// Enables the coming link.
    Join,
    /// Enables the leaving link again.
    Cancel,
    /// Ends a player between.
    Abandon,
    /// Ends a steady player.
    Finish,
}

/// A call by its name.
impl fmt::Display for Call {
    ghost output = { λ call. Some (name call) };

    fn fmt<W: fmt::Write>(&self, f: &mut fmt::Formatter<W>) -> fmt::Result {
        f.write_str(match self {
            Call::Open => "open",
            Call::Draw(_) => "draw",
            Call::Lay(_) => "lay",
            Call::Forward => "forward",
            Call::Backward => "backward",
            Call::Join => "join",
            Call::Cancel => "cancel",
            Call::Abandon => "abandon",
            Call::Finish => "finish",
        })
    }
}

/// A line of a log: a call, and what it answered.
#[derive(Clone, Copy)]
pub struct Line {
    pub call: Call,
    pub answer: Answer,
}

impl Line {
    /// A call that is yet to be made.
    pub fn new(call: Call) -> Line
        ensures { (result.call ≡ call) × (result.answer ≡ Answer.NotMade) }
    {
        Line {
            call,
            answer: Answer::NotMade,
        }
    }
}
