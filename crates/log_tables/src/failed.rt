//! Why a row has no answer, and what ends the program early.

use cub_base::Memory;
use io_edge::LoadFault;
use std::alloc::{AllocError, AllocFailed};
use std::io;

/// Why a row has no answer, or why the program ends.
#[derive(Debug, Drop)]
pub enum Failed {
    /// The row has no form of a row, or a text in it reads as nothing.
    Row,
    /// What the row names does not meet the condition of its call.
    Unfit,
    /// Memory ran out. The program ends.
    Memory,
    /// A file could not be read or a line not be written. The program ends.
    Outside,
}

impl From<AllocError> for Failed {
    fn from(_error: AllocError) -> Failed {
        Failed::Memory
    }
}

impl<T: Drop> From<AllocFailed<T>> for Failed {
    fn from(_error: AllocFailed<T>) -> Failed {
        Failed::Memory
    }
}

impl From<Memory> for Failed {
    fn from(_error: Memory) -> Failed {
        Failed::Memory
    }
}

impl From<io::Error> for Failed {
    fn from(_error: io::Error) -> Failed {
        Failed::Outside
    }
}

impl From<LoadFault> for Failed {
    fn from(_error: LoadFault) -> Failed {
        Failed::Outside
    }
}

impl From<io_edge::Failed> for Failed {
    fn from(_error: io_edge::Failed) -> Failed {
        Failed::Outside
    }
}
