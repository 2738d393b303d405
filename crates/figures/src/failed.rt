//! What ends the program early.

use cub_base::Memory;
use cub_proto::NotProtocol;
use std::alloc::AllocError;
use std::io;

/// Why nothing was measured.
#[derive(Debug, Drop)]
pub enum Failed {
    /// The words are no measure with a size and a number of repetitions.
    Words,
    /// The size is none that the measure has, or what was built for it does not fit.
    Size,
    /// Memory ran out.
    Memory,
    /// The arguments could not be read or the line not be written.
    Output,
}

impl From<AllocError> for Failed {
    fn from(_error: AllocError) -> Failed {
        Failed::Memory
    }
}

impl From<Memory> for Failed {
    fn from(_error: Memory) -> Failed {
        Failed::Memory
    }
}

impl From<io::Error> for Failed {
    fn from(_error: io::Error) -> Failed {
        Failed::Output
    }
}

impl From<NotProtocol> for Failed {
    fn from(error: NotProtocol) -> Failed {
        match error {
            NotProtocol::Unfit => Failed::Size,
            NotProtocol::Memory => Failed::Memory,
        }
    }
}
