//! Groups of cases that are compared.
use crate::tally::Tally;
use std::alloc::Global;

/// A group of cases: the memory that comparing them takes, and the counts.
#[derive(Drop)]
pub struct Group {
    pub heap: Global,
    pub tally: Tally,
}

impl Group {
    pub fn new(heap: Global) -> Group {
        Group {
            heap,
            tally: Tally::default(),
        }
    }
}
