use std::alloc::{AllocError, AllocFailed};
use thiserror::Error;

/// Want of memory: the allocator had none to give. The crates above answer it too.
#[derive(Clone, Copy, Debug, Drop, Error)]
#[error("out of memory")]
pub struct Memory;

impl From<AllocError> for Memory {
    fn from(_: AllocError) -> Memory {
        Memory
    }
}

impl<T: Drop> From<AllocFailed<T>> for Memory {
    fn from(_: AllocFailed<T>) -> Memory {
        Memory
    }
}
