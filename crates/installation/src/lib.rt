//! An installation: a book, a fabric, drawn plans and at most one player; and a call that makes any of the nine calls on it, in
//! any order, with the promise over them in its contract.
#![tactic(auto)]

mod call;
mod draws;
mod memory;
mod performing;
mod seat;
mod slots;
mod turns;

pub use call::{Batch, Call, Line};
pub use memory::Memory;
pub use performing::{Outcome, perform, resume};
pub use promise::Answer;
pub use seat::{Seat, State};
