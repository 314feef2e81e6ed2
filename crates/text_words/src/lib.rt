//! The words of a text: bytes cut at a mark, numbers in decimal, and the letters that tell the kind of a line.
#![tactic(auto)]

mod number;
mod split;
mod token;

pub use split::cut;
pub use token::{Letter, Token, UnknownLetter};
