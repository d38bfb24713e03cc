ghost use Rattle.std.specs.Prelude.{◌≡◌, ◌<◌, ◌≤◌, ◌↔◌, ◌⊎◌, ◌-◌, ◌++◌, Some, [], length, take, min, vec_capacity, IsErr, IsTrue, IfOk, OnErr};
ghost use Rattle.io_edge.specs.Streams.{IsFull, MemSinkValue};
ghost use Rattle.vss_names.specs.Faults.{HasCause, counted, after_call, failing_at, fails_next};

use crate::sink::Sink;
use std::alloc::Global;
use std::marker::Model;
use vss_names::{Failed, FailingCalls, Numbers, OutOfMemory};

/// A sink in memory, which keeps what it took, has a room that it never outgrows, and fails at calls that are
/// chosen beforehand. A call at full room is a fault too.
#[derive(Debug, Drop)]
pub struct MemSink {
    bytes: Vec<u8>,
    room: usize,
    calls: FailingCalls,
    faults: u64,
}

impl Model for MemSink {
    ghost Value = { MemSinkValue };

    ghost view = { λ s. record { taken = s.bytes.items; room = s.room; calls = s.calls; faults = s.faults } };

    ghost invariant = { λ s. (length s.bytes.items ≤ s.room) × (s.room ≤ vec_capacity s.bytes) };
}

impl MemSink {
    /// A sink that took nothing yet and takes at most `room` bytes in all. `failing` has the numbers of the calls
    /// of `write`, counted from 1, that fail. Takes all its memory here.
    pub fn with_room(alloc: Global, room: usize, failing: Numbers) -> Result<MemSink, OutOfMemory>
        ensures taken { IfOk result (λ sink. sink.taken ≡ []) }
        ensures room { IfOk result (λ sink. sink.room ≡ room) }
        ensures calls { IfOk result (λ sink. sink.calls ≡ failing_at failing) }
        ensures faults { IfOk result (λ sink. sink.faults ≡ 0) }
    {
        Ok(MemSink {
            bytes: Vec::with_capacity(alloc, room)?,
            room,
            calls: FailingCalls::of(failing),
            faults: 0,
        })
    }

    /// The bytes that it took, in order.
    pub fn taken(&self) -> &[u8]
        ensures { result.now ≡ self.now.taken }
    {
        &self.bytes
    }
}

impl Sink for MemSink {
    ghost taken = { λ s. Some s.taken };

    ghost count = { λ s. s.faults };

    fn write(&mut self, piece: &[u8]) -> Result<usize, Failed>
        requires some { 0 < length piece.now }
        ensures fails { IsErr result ↔ (IsTrue (fails_next self.old.calls) ⊎ IsFull self.old) }
        ensures least { IfOk result (λ n. 0 < n) }
        ensures most { IfOk result (λ n.
            n ≡ min (length piece.now) (self.old.room - length self.old.taken)) }
        ensures took { IfOk result (λ n.
            self.new ≡ record self.old {
              taken = self.old.taken ++ take n piece.now;
              calls = after_call self.old.calls;
            }) }
        ensures fault { OnErr result
            (self.new ≡ record self.old { calls = after_call self.old.calls; faults = counted self.old.faults 1 }) }
        ensures cause { HasCause self.old.faults self.new.faults result }
    {
        self.calls.make(&mut self.faults)?;
        let spare = self.room - self.bytes.len();
        if spare == 0 {
            self.faults = self.faults.saturating_add(1);
            return Err(Failed);
        }
        let n = piece.len().min(spare);
        let _ = self.bytes.extend_from_slice(&piece[..n]);
        Ok(n)
    }

    fn faults(&self) -> u64 {
        self.faults
    }
}
