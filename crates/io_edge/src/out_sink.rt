ghost use Rattle.std.specs.Prelude.{ℕ, ◌≡◌, ◌<◌, ◌≤◌, None, length, IfOk, OnOk, OnErr};
ghost use Rattle.vss_names.specs.Faults.{HasCause, counted};

use crate::sink::Sink;
use std::io::{Stdout, Write};
use std::marker::Model;
use vss_names::Failed;

/// The standard output, which tells no bytes. Contracts see its count of faults.
///
/// Each call of `write` is one call of the system, with no buffer between: what it took is out, and a caller that
/// passes large pieces pays few calls. One that the system interrupts, or that takes nothing, is a fault.
#[derive(Debug, Drop)]
pub struct OutSink {
    stdout: Stdout,
    faults: u64,
}

impl Model for OutSink {
    ghost Value = { ℕ };

    ghost view = { λ s. s.faults };
}

impl OutSink {
    /// The standard output of the runtime: `OutSink::new(rt.stdout())`.
    pub fn new(stdout: Stdout) -> OutSink
        ensures { result ≡ 0 }
    {
        OutSink { stdout, faults: 0 }
    }
}

impl Sink for OutSink {
    ghost taken = { λ _. None };

    ghost count = { λ s. s };

    fn write(&mut self, piece: &[u8]) -> Result<usize, Failed>
        requires some { 0 < length piece.now }
        ensures least { IfOk result (λ n. 0 < n) }
        ensures within { IfOk result (λ n. n ≤ length piece.now) }
        ensures ok { OnOk result (self.new ≡ self.old) }
        ensures err { OnErr result (self.new ≡ counted self.old 1) }
        ensures cause { HasCause self.old self.new result }
    {
        match self.stdout.write(piece) {
            Ok(n) if n > 0 => Ok(n),
            _ => {
                self.faults = self.faults.saturating_add(1);
                Err(Failed)
            }
        }
    }

    fn faults(&self) -> u64 {
        self.faults
    }
}
