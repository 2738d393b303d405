//! A caller as the program's top call is one: it asks a shelf for a text, makes its answer whole, and then writes it.
//! It stands here to show that what such a caller has to say follows from the clauses of the traits alone.

ghost use Rattle.std.specs.Prelude.{◌≡◌, ◌≢◌, ℕ, ◌-◌, ◌^◌, ◌<◌, ◌≤◌, List, [], ◌∷◌, length, IfSome, IsTrue};
ghost use Rattle.io_edge.specs.Faults.{Rose};
ghost use Rattle.io_edge.specs.Shelf.{AsksFor, IsOver};
ghost use Rattle.io_edge.specs.Sink.{with_bytes, WritesPart};

use crate::{LoadFault, Shelf, Sink, put_all};
use std::alloc::Global;

/// The bytes of the name, written back: 0 when they are, 4 when they are over the limit, 6 when the load fails, 7 when
/// the writing fails and 8 when memory runs out.
pub fn write_back<S: Shelf, K: Sink>(
    alloc: Global,
    name: &str,
    limit: u64,
    shelf: &mut S,
    out: &mut K,
) -> u8
    // The one name is asked for, at most once.
    ensures asked { AsksFor (S.asked shelf.old) (S.asked shelf.new) (name.now ∷ []) }

    // The status and what is written.
    ensures done { result ≡ 0 → (bytes : List ℕ) × (length bytes ≤ limit)
        × IfSome (S.bytes_of shelf.old name.now) (λ told. bytes ≡ told)
        × (K.written out.new ≡ with_bytes (K.written out.old) bytes) }
    ensures too_long { result ≡ 4 → IsOver (S.bytes_of shelf.old name.now) (S.taken shelf.new) limit }
    ensures not_read { result ≡ 6 → Rose (S.faults shelf.old) (S.faults shelf.new) }
    ensures not_written { result ≡ 7 → Rose (K.faults out.old) (K.faults out.new) }
    ensures part { result ≡ 7 → (bytes : List ℕ) × (length bytes ≤ limit)
        × IfSome (S.bytes_of shelf.old name.now) (λ told. bytes ≡ told)
        × WritesPart (K.written out.old) (K.written out.new) bytes }
    ensures nothing { result ≢ 0 → result ≢ 7 → K.written out.new ≡ K.written out.old }

    // Over a shelf that is sure of the name and a sink with spare for its bytes it neither reads nor writes in vain.
    ensures read { IsTrue (S.is_sure shelf.old name.now) → S.faults shelf.old < 2 ^ 64 - 1 → result ≢ 6 }
    ensures written { limit ≤ K.spare out.old → K.faults out.old < 2 ^ 64 - 1 → result ≢ 7 }
{
    match shelf.load(alloc, name, limit) {
        Ok(bytes) => match put_all(out, bytes.as_slice()) {
            Ok(()) => 0,
            Err(_) => 7,
        },
        Err(LoadFault::Failed) => 6,
        Err(LoadFault::TooLong) => 4,
        Err(LoadFault::Memory) => 8,
    }
}
