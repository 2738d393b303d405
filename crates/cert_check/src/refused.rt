//! Why a certificate is refused.

use cub_base::Memory;

/// The first obligation that fails, or the first cover line that is about none. Numbers count from 0: `goal` among all
/// unsafe conjunctions, also those that no state meets, `piece` among the pieces of the cube, and `line` among the cover
/// lines.
#[derive(Clone, Copy, Debug, PartialEq, Eq)]
pub enum Refused {
    /// A start state meets the cube.
    Start { cube: u32 },
    /// The unsafe conjunction is not covered.
    Unsafe { goal: u32 },
    /// The piece is not covered.
    Piece { cube: u32, piece: u64 },
    /// All obligations hold, and the cover line is about none of them.
    Extra { line: u64 },
    Memory,
}

impl From<Memory> for Refused {
    ghost use Rattle.std.specs.Prelude.{◌≡◌};
    ghost use Rattle.cert_check.specs.declared.refused.Refused.TheVariants.{Memory};

    ghost from_gives = { λ _ e. e ≡ Memory };

    fn from(_error: Memory) -> Refused {
        Refused::Memory
    }
}
