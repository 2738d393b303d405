//! A sink in memory, for tests and for callers that want the text itself. It can be made to take its bytes a few at a
//! time, to run out of room and to fail at given calls, so each way in which writing ends can be tried.

ghost use Rattle.std.specs.Prelude.{◌≡◌, ◌<◌, [], length, take, IfOk, OnErr, IsErr, IsTrue, ◌↔◌};
ghost use Rattle.io_edge.specs.Faults.{Rose};
ghost use Rattle.io_edge.specs.Sink.{with_bytes};

use crate::calls::is_among;
use crate::{Calls, Failed, Sink};
use cub_base::Memory;
use std::alloc::Global;
use std::marker::Model;

/// Keeps what is written, in room made in advance.
#[derive(Drop)]
pub struct MemSink {
    bytes: Vec<u8>,
    room: usize,
    most: usize,
    fails: Calls,
    calls: u64,
    faults: u64,
}

impl Model for MemSink {
    ghost use Rattle.std.specs.Prelude.{◌<◌, ◌≤◌, vec_len, vec_capacity};
    ghost use Rattle.io_edge.specs.MemorySink.{MemorySink};

    ghost Value = { MemorySink };

    ghost view = { λ sink. record {
      written = sink.bytes.items;
      room = sink.room;
      most = sink.most;
      fails = sink.fails;
      calls = sink.calls;
      faults = sink.faults;
    } };

    ghost invariant = { λ sink. (0 < sink.most) × (vec_len sink.bytes ≤ sink.room) × (sink.room ≤ vec_capacity sink.bytes) };
}

impl MemSink {
    /// A sink with room for `room` bytes, which takes at most `most` a call and fails at the calls of `fails`.
    pub fn new(alloc: Global, room: usize, most: usize, fails: Calls) -> Result<MemSink, Memory>
        requires { 0 < most }
        ensures { IfOk result (λ sink. sink ≡ record { written = []; room = room; most = most; fails = fails; calls = 0; faults = 0 }) }
    {
        let bytes = Vec::with_capacity(alloc, room)?;
        Ok(MemSink {
            bytes,
            room,
            most,
            fails,
            calls: 0,
            faults: 0,
        })
    }

    /// The bytes written.
    pub fn bytes(&self) -> &[u8]
        ensures { result.now ≡ self.now.written }
    {
        self.bytes.as_slice()
    }

    /// How often it failed. The count stays at the greatest u64.
    pub fn faults(&self) -> u64
        ensures { result ≡ self.now.faults }
    {
        self.faults
    }
}

impl Sink for MemSink {
    ghost use Rattle.std.specs.Prelude.{Some, ◌≤◌, ◌+◌};
    ghost use Rattle.io_edge.specs.MemorySink.{spare_of, put_fails, count_of, after_put};

    ghost written = { λ sink. Some sink.written };

    ghost faults = { λ sink. sink.faults };

    ghost spare = { spare_of };

    fn put(&mut self, bytes: &[u8]) -> Result<usize, Failed>
        requires { 0 < length bytes.now }

        // What every sink says.
        ensures some { IfOk result (λ count. 0 < count) }
        ensures within { IfOk result (λ count. count ≤ length bytes.now) }
        ensures appends { IfOk result (λ count. Some self.new.written ≡ with_bytes (Some self.old.written) (take count bytes.now)) }
        ensures nothing { OnErr result (Some self.new.written ≡ Some self.old.written) }
        ensures failed { OnErr result (Rose self.old.faults self.new.faults) }
        ensures never_falls { self.old.faults ≤ self.new.faults }
        ensures sure { length bytes.now ≤ spare_of self.old → self.new.faults ≡ self.old.faults }
        ensures spare { IfOk result (λ count. spare_of self.old ≤ spare_of self.new + count) }

        // What this one says.
        ensures fails { IsErr result ↔ IsTrue (put_fails self.old) }
        ensures count { IfOk result (λ count. count ≡ count_of self.old bytes.now) }
        ensures after { self.new ≡ after_put self.old bytes.now }
    {
        let fails = is_among(&self.fails, self.calls);
        self.calls = self.calls.saturating_add(1);
        let left = self.room - self.bytes.len();
        if fails || left == 0 {
            self.faults = self.faults.saturating_add(1);
            return Err(Failed);
        }
        let count = bytes.len().min(self.most).min(left);
        self.bytes.extend_from_slice(&bytes[..count]).unwrap();
        Ok(count)
    }
}
