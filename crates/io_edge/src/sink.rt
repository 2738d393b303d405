//! Where the answer goes. A sink takes some of a piece at a time and needs no memory for it, so writing a text that
//! stands ready fails only where the outside does.

ghost use Rattle.std.specs.Prelude.{◌≡◌, ℕ, ◌+◌, ◌<◌, ◌≤◌, List, length, take, Option, IfOk, OnOk, OnErr};
ghost use Rattle.io_edge.specs.Faults.{Rose};
ghost use Rattle.io_edge.specs.Sink.{with_bytes, WritesPart};

/// A write took nothing; the count of faults rose.
#[derive(Clone, Copy, Debug, PartialEq, Eq)]
pub struct Failed;

/// Takes bytes.
pub trait Sink {
    /// The bytes written, where the sink tells them.
    ghost written: { Self → Option (List ℕ) };

    /// How often it failed. The count stays at the greatest u64.
    ghost faults: { Self → ℕ };

    /// How many more bytes it takes without a failure. What standard output does, nothing tells.
    ghost spare: { Self → ℕ } = { λ _. 0 };

    /// Takes the first bytes of the piece, at least one, and answers how many.
    fn put(&mut self, bytes: &[u8]) -> Result<usize, Failed>
        requires { 0 < length bytes.now }
        ensures some { IfOk result (λ count. 0 < count) }
        ensures within { IfOk result (λ count. count ≤ length bytes.now) }
        ensures appends { IfOk result (λ count. written self.new ≡ with_bytes (written self.old) (take count bytes.now)) }
        ensures nothing { OnErr result (written self.new ≡ written self.old) }
        ensures failed { OnErr result (Rose (faults self.old) (faults self.new)) }
        ensures never_falls { faults self.old ≤ faults self.new }
        ensures sure { length bytes.now ≤ spare self.old → faults self.new ≡ faults self.old }
        ensures spare { IfOk result (λ count. spare self.old ≤ spare self.new + count) };
}

/// Writes all the bytes, a piece at a time. It takes no memory.
pub fn put_all<K: Sink>(out: &mut K, bytes: &[u8]) -> Result<(), Failed>
    ensures all { OnOk result (K.written out.new ≡ with_bytes (K.written out.old) bytes.now) }
    ensures part { OnErr result (WritesPart (K.written out.old) (K.written out.new) bytes.now) }
    ensures failed { OnErr result (Rose (K.faults out.old) (K.faults out.new)) }
    ensures never_falls { K.faults out.old ≤ K.faults out.new }
    ensures sure { length bytes.now ≤ K.spare out.old → K.faults out.new ≡ K.faults out.old }
    ensures spare { OnOk result (K.spare out.old ≤ K.spare out.new + length bytes.now) }
{
    let mut done = 0;
    while done < bytes.len() {
        done += out.put(&bytes[done..])?;
    }
    Ok(())
}
