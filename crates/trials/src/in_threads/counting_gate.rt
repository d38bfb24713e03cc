use std::fmt;
use std::sync::atomic::AtomicU64;
use std::sync::atomic::Ordering::SeqCst;
use vss_play::{Gate, Moved};
use write_history::Actor;

/// A gate that counts how often it is called, and how many moves were made.
#[derive(Drop)]
pub struct CountingGate {
    before: AtomicU64,
    after: AtomicU64,
    moved: AtomicU64,
}

impl CountingGate {
    /// It was not called yet.
    pub fn new() -> CountingGate {
        CountingGate {
            before: AtomicU64::new(0),
            after: AtomicU64::new(0),
            moved: AtomicU64::new(0),
        }
    }
}

impl Gate for CountingGate {
    fn before(&self, _actor: Actor) {
        let _ = self.before.fetch_add(1, SeqCst);
    }

    fn after(&self, _actor: Actor, moved: Moved) {
        let _ = self.after.fetch_add(1, SeqCst);
        if moved == Moved::Moved {
            let _ = self.moved.fetch_add(1, SeqCst);
        }
    }
}

impl fmt::Display for CountingGate {
    fn fmt<W: fmt::Write>(&self, f: &mut fmt::Formatter<W>) -> fmt::Result {
        let (before, after) = (self.before.load(SeqCst), self.after.load(SeqCst));
        let moved = self.moved.load(SeqCst);
        write!(f, "before {before} after {after} moved {moved}")
    }
}
