//! Why a text is not the journal of a log.

ghost use Rattle.std.specs.Prelude.{◌≡◌};
ghost use Rattle.journal_text.specs.declared.fault.JournalFault.TheVariants.{Memory};

use std::alloc::{AllocError, AllocFailed};
use thiserror::Error;

/// The first faulty line of a text, or want of memory.
#[derive(Clone, Copy, Debug, PartialEq, Eq, Error)]
pub enum JournalFault {
    /// Lines count from 1. The kind is 1 to 5: the heading, the version and the budget; the form of a line; a fault of a
    /// cube; a line that makes an event not legal; the closing lines. The caller answers 0 for a text that is too long.
    #[error("J{kind} at line {line}")]
    Fault { line: u32, kind: u8 },
    #[error("out of memory")]
    Memory,
}

impl From<AllocError> for JournalFault {
    ghost from_gives = { λ _ e. e ≡ Memory };

    fn from(_error: AllocError) -> JournalFault {
        JournalFault::Memory
    }
}

impl<T: Drop> From<AllocFailed<T>> for JournalFault {
    ghost from_gives = { λ _ e. e ≡ Memory };

    fn from(_error: AllocFailed<T>) -> JournalFault {
        JournalFault::Memory
    }
}

impl From<cub_base::Memory> for JournalFault {
    ghost from_gives = { λ _ e. e ≡ Memory };

    fn from(_error: cub_base::Memory) -> JournalFault {
        JournalFault::Memory
    }
}
