//! The book: a network with its least tree, over lent tables.
#![tactic(auto)]

mod book;
mod drawn;
mod tables;

pub use book::Book;
pub use drawn::Drawn;
pub use tables::Tables;
