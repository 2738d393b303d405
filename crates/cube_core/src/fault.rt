//! Why a given event is not admitted.

use cub_base::Memory;

/// A given event is no legal event, or memory ran out. `added` is none where the mark, the node or a `needed` number
/// refuses the event; else it is the number of the first item of its list that may not be added, or where there is none
/// and a piece is lacking, the number of items.
#[derive(Clone, Copy, Debug, PartialEq, Eq)]
pub enum AdmitFault {
    Not { added: Option<u32> },
    Memory,
}

impl From<Memory> for AdmitFault {
    ghost use Rattle.std.specs.Prelude.{◌≡◌};
    ghost use Rattle.cube_core.specs.declared.fault.AdmitFault.TheVariants.{Memory};

    ghost from_gives = { λ _ fault. fault ≡ Memory };

    fn from(_error: Memory) -> AdmitFault {
        AdmitFault::Memory
    }
}
