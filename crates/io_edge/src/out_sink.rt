//! Standard output as a sink. No clause says what an output keeps, so the sink tells no bytes; what is proved is that
//! it answers a failure only where it counted one.

ghost use Rattle.std.specs.Prelude.{◌≡◌};

use crate::{Failed, Sink};
use std::io::ErrorKind;
use std::marker::Model;

/// Writes to what the runtime prints to.
#[derive(Drop)]
pub struct OutSink<P: Print> {
    out: P,
    faults: u64,
}

// Of a sink on standard output a contract sees its count of faults.
impl<P: Print> Model for OutSink<P> {
    ghost use Rattle.std.specs.Prelude.{ℕ};
    ghost use Rattle.std.specs.Coded.{coded_ℕ};

    ghost Value = { ℕ };

    ghost coded = { coded_ℕ };

    ghost view = { λ sink. sink.faults };
}

impl<P: Print> OutSink<P> {
    /// A sink on the output, which did not fail yet.
    pub fn new(out: P) -> OutSink<P>
        ensures { result ≡ 0 }
    {
        OutSink { out, faults: 0 }
    }

    /// How often it failed. The count stays at the greatest u64.
    pub fn faults(&self) -> u64
        ensures { result ≡ self.now }
    {
        self.faults
    }
}

impl<P: Print> Sink for OutSink<P> {
    ghost use Rattle.std.specs.Prelude.{◌<◌, ◌≤◌, length, None, IfOk, OnOk, OnErr};
    ghost use Rattle.io_edge.specs.Faults.{Rose, one_higher};

    ghost written = { λ _. None };

    ghost faults = { λ faults. faults };

    /// A write that a signal interrupts is tried again. One that takes nothing of the piece is a fault.
    fn put(&mut self, bytes: &[u8]) -> Result<usize, Failed>
        ensures some { IfOk result (λ count. 0 < count) }
        ensures within { IfOk result (λ count. count ≤ length bytes.now) }
        ensures failed { OnErr result (Rose self.old self.new) }
        ensures never_falls { self.old ≤ self.new }
        ensures one_fault { OnErr result (self.new ≡ one_higher self.old) }
        ensures no_fault { OnOk result (self.new ≡ self.old) }
    {
        for _ in 0..u64::MAX {
            match self.out.write_some(bytes) {
                Ok(0) => break,
                Ok(count) => return Ok(count),
                Err(error) => {
                    if error.kind() != ErrorKind::Interrupted {
                        break;
                    }
                }
            }
        }
        self.faults = self.faults.saturating_add(1);
        Err(Failed)
    }
}
