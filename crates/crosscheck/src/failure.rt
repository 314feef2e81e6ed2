//! Why the comparison could not go on.
use faults::WeightFault;
use std::alloc::{AllocError, AllocFailed};
use std::io;

#[derive(Debug, Drop)]
pub enum Failure {
    Memory,
    Printing,
    NoWeight,
}

impl From<AllocError> for Failure {
    fn from(_e: AllocError) -> Failure {
        Failure::Memory
    }
}

impl<T: Drop> From<AllocFailed<T>> for Failure {
    fn from(_e: AllocFailed<T>) -> Failure {
        Failure::Memory
    }
}

impl From<io::Error> for Failure {
    fn from(_e: io::Error) -> Failure {
        Failure::Printing
    }
}

impl From<WeightFault> for Failure {
    fn from(_e: WeightFault) -> Failure {
        Failure::NoWeight
    }
}
