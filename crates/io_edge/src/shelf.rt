//! Where texts come from. A caller that is generic over a shelf knows of it what its meanings say: how often it
//! failed, how much the last load took and, where the shelf tells them, the bytes of each name and the names asked
//! for. A real file tells neither, so its reader is proved against the same clauses with less to say.

ghost use Rattle.std.specs.Prelude.{◌≡◌, ℕ, ◌≤◌, List, length, Option, IfSome, IfOk, IsErrOf, Bool, false, IsTrue};
ghost use Rattle.io_edge.specs.Faults.{Rose};
ghost use Rattle.io_edge.specs.Shelf.{AddsName, IsOver};

use std::alloc::{AllocError, Global};

/// Why a load gave no bytes.
#[derive(Clone, Copy, Debug, PartialEq, Eq)]
pub enum LoadFault {
    /// The outside failed; the count of faults rose.
    Failed,
    /// The name has more bytes than the limit.
    TooLong,
    /// Memory ran out.
    Memory,
}

impl From<AllocError> for LoadFault {
    ghost use Rattle.std.specs.Prelude.{◌≡◌};
    ghost use Rattle.io_edge.specs.declared.shelf.LoadFault.TheVariants.{Memory};

    ghost from_gives = { λ _ fault. fault ≡ Memory };

    fn from(_error: AllocError) -> LoadFault {
        LoadFault::Memory
    }
}

/// Gives the bytes of names.
pub trait Shelf {
    /// How often it failed. The count stays at the greatest u64.
    ghost faults: { Self → ℕ };

    /// How many bytes the last load took.
    ghost taken: { Self → ℕ };

    /// The bytes of a name, where the shelf tells them.
    ghost bytes_of: { Self → List ℕ → Option (List ℕ) };

    /// The names asked for, the first one first, where the shelf tells them.
    ghost asked: { Self → Option (List (List ℕ)) };

    /// Whether loads of that name fail no more. What a file does, nothing tells.
    ghost is_sure: { Self → List ℕ → Bool } = { λ _ _. false };

    /// The bytes of the name, if they are at most `limit`.
    fn load(&mut self, alloc: Global, name: &str, limit: u64) -> Result<Vec<u8>, LoadFault>
        // What is given.
        ensures within { IfOk result (λ given. length given.items ≤ limit) }
        ensures told { IfSome (bytes_of self.old name.now) (λ bytes. IfOk result (λ given. given.items ≡ bytes)) }
        ensures too_long { IsErrOf result LoadFault.TooLong → IsOver (bytes_of self.old name.now) (taken self.new) limit }

        // A failure has its cause.
        ensures failed { IsErrOf result LoadFault.Failed → Rose (faults self.old) (faults self.new) }
        ensures never_falls { faults self.old ≤ faults self.new }
        ensures sure { IsTrue (is_sure self.old name.now) → faults self.new ≡ faults self.old }

        // What every call leaves.
        ensures asked { AddsName (asked self.old) (asked self.new) name.now result }
        ensures same { (other : List ℕ) → bytes_of self.new other ≡ bytes_of self.old other }
        ensures stays_sure { (other : List ℕ) → IsTrue (is_sure self.old other) → IsTrue (is_sure self.new other) };
}
