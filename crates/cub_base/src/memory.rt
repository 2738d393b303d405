//! Want of memory, the one refusal that no contract ties to its arguments.

use std::alloc::AllocError;

/// Memory ran out. It is merged with no other refusal.
#[derive(Clone, Copy, Debug, PartialEq, Eq)]
pub struct Memory;

impl From<AllocError> for Memory {
    fn from(_error: AllocError) -> Memory {
        Memory
    }
}
