ghost use Rattle.std.specs.Prelude.{◌≡◌, ◌<◌, ◌≤◌, ◌↔◌, ◌++◌, Some, [], length, take, drop, min, is_err, IfOk, OnErr};
ghost use Rattle.io_edge.specs.Streams.{MemSourceValue};
ghost use Rattle.vss_names.specs.Faults.{HasCause, counted, after_call, failing_at, fails_next};

use crate::source::Source;
use std::marker::Model;
use vss_names::{Failed, FailingCalls, Numbers};

/// A source in memory, which gives its bytes a piece at a time and fails at calls that are chosen beforehand.
#[derive(Debug, Drop)]
pub struct MemSource {
    bytes: Vec<u8>,
    at: usize,
    piece: usize,
    calls: FailingCalls,
    faults: u64,
}

impl Model for MemSource {
    ghost Value = { MemSourceValue };

    ghost view = { λ s. record { left = drop s.at s.bytes.items; piece = s.piece; calls = s.calls; faults = s.faults } };

    ghost invariant = { λ s. (s.at ≤ length s.bytes.items) × (0 < s.piece) };
}

impl MemSource {
    /// A source of these bytes that gives at most `piece` of them per call. `failing` has the numbers of the calls
    /// of `read`, counted from 1, that fail. Takes no memory.
    pub fn new(bytes: Vec<u8>, piece: usize, failing: Numbers) -> MemSource
        requires { 0 < piece }
        ensures left { result.left ≡ bytes.items }
        ensures piece { result.piece ≡ piece }
        ensures calls { result.calls ≡ failing_at failing }
        ensures faults { result.faults ≡ 0 }
    {
        MemSource {
            bytes,
            at: 0,
            piece,
            calls: FailingCalls::of(failing),
            faults: 0,
        }
    }

    /// The bytes that it has left.
    pub fn left(&self) -> &[u8]
        ensures { result.now ≡ self.now.left }
    {
        &self.bytes[self.at..]
    }
}

impl Source for MemSource {
    ghost left = { λ s. Some s.left };

    ghost count = { λ s. s.faults };

    fn read(&mut self, out: &mut [u8]) -> Result<usize, Failed>
        requires room { 0 < length out.old }
        ensures fails { is_err result ≡ fails_next self.old.calls }
        ensures ends { IfOk result (λ n. (n ≡ 0) ↔ (self.old.left ≡ [])) }
        ensures most { IfOk result (λ n.
            n ≡ min (min self.old.piece (length out.old)) (length self.old.left)) }
        ensures filled { IfOk result (λ n. out.new ≡ take n self.old.left ++ drop n out.old) }
        ensures given { IfOk result (λ n.
            self.new ≡ record self.old { left = drop n self.old.left; calls = after_call self.old.calls }) }
        ensures fault { OnErr result
            (self.new ≡ record self.old { calls = after_call self.old.calls; faults = counted self.old.faults 1 }) }
        ensures untouched { OnErr result (out.new ≡ out.old) }
        ensures cause { HasCause self.old.faults self.new.faults result }
    {
        self.calls.make(&mut self.faults)?;
        let n = self.piece.min(out.len()).min(self.bytes.len() - self.at);
        let end = self.at + n;
        out[..n].copy_from_slice(&self.bytes[self.at..end]);
        self.at = end;
        Ok(n)
    }

    fn faults(&self) -> u64 {
        self.faults
    }
}
