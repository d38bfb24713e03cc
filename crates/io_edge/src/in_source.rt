ghost use Rattle.std.specs.Prelude.{ℕ, ◌≡◌, ◌<◌, ◌≤◌, None, length, IfOk, OnOk, OnErr};
ghost use Rattle.vss_names.specs.Faults.{HasCause, counted};

use crate::source::Source;
use std::io::{Read, Stdin};
use std::marker::Model;
use vss_names::Failed;

/// The standard input, which tells no bytes. Contracts see its count of faults.
///
/// Each call of `read` is one call of the system, with no buffer between. One that the system interrupts is a
/// fault like any other.
#[derive(Debug, Drop)]
pub struct InSource {
    stdin: Stdin,
    faults: u64,
}

impl Model for InSource {
    ghost Value = { ℕ };

    ghost view = { λ s. s.faults };
}

impl InSource {
    /// The standard input of the runtime: `InSource::new(rt.stdin())`.
    pub fn new(stdin: Stdin) -> InSource
        ensures { result ≡ 0 }
    {
        InSource { stdin, faults: 0 }
    }
}

impl Source for InSource {
    ghost left = { λ _. None };

    ghost count = { λ s. s };

    fn read(&mut self, out: &mut [u8]) -> Result<usize, Failed>
        requires room { 0 < length out.old }
        ensures within { IfOk result (λ n. n ≤ length out.old) }
        ensures ok { OnOk result (self.new ≡ self.old) }
        ensures err { OnErr result (self.new ≡ counted self.old 1) }
        ensures cause { HasCause self.old self.new result }
    {
        match self.stdin.read(out) {
            Ok(n) => Ok(n),
            Err(_) => {
                self.faults = self.faults.saturating_add(1);
                Err(Failed)
            }
        }
    }

    fn faults(&self) -> u64 {
        self.faults
    }
}
