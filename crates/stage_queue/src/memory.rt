//! That there was no memory.

use std::alloc::AllocError;
use thiserror::Error;

/// A growth was refused: there is no memory, or the size is past what memory can hold.
#[derive(Clone, Copy, PartialEq, Eq, Debug, Error)]
#[error("out of memory")]
pub struct Memory;

impl From<AllocError> for Memory {
    fn from(_refused: AllocError) -> Memory {
        Memory
    }
}
