//! The lines that the text tool prints: a plan's tree, entries and work, or a refusal.
#![tactic(auto)]

mod output;
mod refusal;

pub use output::{EntryLine, TreeLine, WorkLine};
pub use refusal::{Refusal, draw_refusal, open_refusal};
