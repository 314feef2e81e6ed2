//! The port table: a fabric kept as a switch keeps it, in chains of records, a chain for each node and two records for
//! each link.
#![tactic(auto)]

mod cells;
mod chains;
mod table;

pub use table::PortTable;
