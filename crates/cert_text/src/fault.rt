//! Why a text is not the text of a certificate.

ghost use Rattle.std.specs.Prelude.{◌≡◌};
ghost use Rattle.cert_text.specs.declared.fault.CertFault.TheVariants.{Memory};

use std::alloc::{AllocError, AllocFailed};
use thiserror::Error;

/// The first faulty line of a text, or want of memory.
#[derive(Clone, Copy, Debug, PartialEq, Eq, Error)]
pub enum CertFault {
    /// Lines count from 1. The kind is 1 to 8: the heading and the version; the number of cubes; the form of a cube; what
    /// a cube names; its normal form; a line that is missing or stands where it may not; the form or the order of a cover
    /// line; what a cover line names. The caller answers 0 for a text that is too long.
    #[error("C{kind} at line {line}")]
    Fault { line: u32, kind: u8 },
    #[error("out of memory")]
    Memory,
}

impl From<AllocError> for CertFault {
    ghost from_gives = { λ _ e. e ≡ Memory };

    fn from(_error: AllocError) -> CertFault {
        CertFault::Memory
    }
}

impl<T: Drop> From<AllocFailed<T>> for CertFault {
    ghost from_gives = { λ _ e. e ≡ Memory };

    fn from(_error: AllocFailed<T>) -> CertFault {
        CertFault::Memory
    }
}
