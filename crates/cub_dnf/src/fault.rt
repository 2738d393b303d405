//! Why a formula has no normal form.

use std::alloc::AllocError;

/// Which limit the list of conjunctions is above, or want of memory.
#[derive(Clone, Copy, Debug, PartialEq, Eq)]
pub enum DnfFault {
    /// It has more than 64 conjunctions.
    TooMany,
    /// It has at most 64 conjunctions, and one of them has more than 64 literals.
    TooWide,
    /// Memory ran out.
    Memory,
}

impl From<AllocError> for DnfFault {
    ghost use Rattle.std.specs.Prelude.{◌≡◌};
    ghost use Rattle.cub_dnf.specs.declared.fault.DnfFault.TheVariants.{Memory};

    ghost from_gives = { λ _ fault. fault ≡ Memory };

    fn from(_error: AllocError) -> DnfFault {
        DnfFault::Memory
    }
}
