// Why a row can't be tried.
use qc_containers::Memory;
use std::alloc::{AllocError, AllocFailed};

/// Why a row can't be tried.
#[derive(Drop)]
pub enum Odd {
    /// It has another form than the rows of its kind.
    Form,
    /// Memory was wanting.
    Memory,
}

impl From<Memory> for Odd {
    fn from(_: Memory) -> Odd {
        Odd::Memory
    }
}

impl From<AllocError> for Odd {
    fn from(_: AllocError) -> Odd {
        Odd::Memory
    }
}

impl<T: Drop> From<AllocFailed<T>> for Odd {
    fn from(_: AllocFailed<T>) -> Odd {
        Odd::Memory
    }
}
