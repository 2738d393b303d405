//! Why a text is not the text of a cube.

ghost use Rattle.std.specs.Prelude.{◌≡◌};
ghost use Rattle.cube_text.specs.declared.fault.CubeFault.TheVariants.{Memory};

use std::alloc::{AllocError, AllocFailed};
use thiserror::Error;

/// The first of these that holds, in this order, or want of memory.
#[derive(Clone, Copy, Debug, PartialEq, Eq, Error)]
pub enum CubeFault {
    /// The bytes are no cube, whatever their names.
    #[error("no cube")]
    Form,
    /// A name, a place, a sort, the width or a bound is not there or passes its limit.
    #[error("something unknown")]
    Unknown,
    /// The literals are no normal form, or a list of constructors is not spelled as it should be.
    #[error("no normal form")]
    Order,
    #[error("out of memory")]
    Memory,
}

impl From<AllocError> for CubeFault {
    ghost from_gives = { λ _ e. e ≡ Memory };

    fn from(_error: AllocError) -> CubeFault {
        CubeFault::Memory
    }
}

impl<T: Drop> From<AllocFailed<T>> for CubeFault {
    ghost from_gives = { λ _ e. e ≡ Memory };

    fn from(_error: AllocFailed<T>) -> CubeFault {
        CubeFault::Memory
    }
}
