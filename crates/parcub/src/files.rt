//! Why a command has no answer, and the limit of the second files.

use cub_base::Memory;

/// The most bytes of a certificate, a trace or a journal.
pub const RESULT_LIMIT: u64 = 268_435_456;

/// Why there is no answer.
#[derive(Clone, Copy)]
pub enum Stop {
    /// The shelf failed.
    Failed,
    /// Memory ran out.
    Memory,
}

impl From<Memory> for Stop {
    ghost use Rattle.std.specs.Prelude.{◌≡◌};
    ghost use Rattle.parcub.specs.declared.files.Stop.{Stop};

    ghost from_gives = { λ _ stop. stop ≡ Stop.Memory };

    fn from(_error: Memory) -> Stop {
        Stop::Memory
    }
}
