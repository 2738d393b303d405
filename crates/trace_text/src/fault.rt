//! Why a text is not the text of a trace.

ghost use Rattle.std.specs.Prelude.{◌≡◌};
ghost use Rattle.trace_text.specs.declared.fault.TraceFault.TheVariants.{Memory};

use std::alloc::{AllocError, AllocFailed};
use thiserror::Error;

/// The first faulty line of a text, or want of memory.
#[derive(Clone, Copy, Debug, PartialEq, Eq, Error)]
pub enum TraceFault {
    /// Lines count from 1. The kind is 1 to 6: the heading and the version; the number of processes; a start value; an
    /// event; a closing line; bytes behind the end.
    #[error("S{kind} at line {line}")]
    Fault { line: u32, kind: u8 },
    #[error("out of memory")]
    Memory,
}

impl From<AllocError> for TraceFault {
    ghost from_gives = { λ _ e. e ≡ Memory };

    fn from(_error: AllocError) -> TraceFault {
        TraceFault::Memory
    }
}

impl<T: Drop> From<AllocFailed<T>> for TraceFault {
    ghost from_gives = { λ _ e. e ≡ Memory };

    fn from(_error: AllocFailed<T>) -> TraceFault {
        TraceFault::Memory
    }
}
