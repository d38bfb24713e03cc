use std::fmt;
use std::sync::atomic::Ordering::SeqCst;
use std::sync::atomic::{AtomicBool, AtomicU64};
use std::thread::Parker;
use vss_play::{Gate, Moved};
use write_history::Actor;

/// How far a run is. Its threads count, and one more may show it.
#[derive(Drop)]
pub struct Progress {
    /// Moves that the threads of the actors made. The caller makes those that are left, without telling the gate.
    moves: AtomicU64,
    /// Blocks that were read from devices or lent by them, to be digested or copied.
    blocks: AtomicU64,
    over: AtomicBool,
    /// Where the thread that shows it waits.
    pub watcher: Parker,
}

impl Progress {
    pub fn new() -> Progress {
        Progress {
            moves: AtomicU64::new(0),
            blocks: AtomicU64::new(0),
            over: AtomicBool::new(false),
            watcher: Parker::new(),
        }
    }

    pub fn count_block(&self) {
        let _ = self.blocks.fetch_add(1, SeqCst);
    }

    /// Whether a move was made: before that the scenario is read, which may be typed on the same terminal.
    pub fn has_begun(&self) -> bool {
        self.moves.load(SeqCst) > 0 || self.blocks.load(SeqCst) > 0
    }

    pub fn is_over(&self) -> bool {
        self.over.load(SeqCst)
    }

    /// Ends the wait of the thread that shows it.
    pub fn end(&self) {
        self.over.store(true, SeqCst);
        self.watcher.unpark();
    }
}

impl Gate for Progress {
    fn before(&self, _actor: Actor) {}

    fn after(&self, _actor: Actor, moved: Moved) {
        if moved == Moved::Moved {
            let _ = self.moves.fetch_add(1, SeqCst);
        }
    }
}

impl fmt::Display for Progress {
    fn fmt<W: fmt::Write>(&self, f: &mut fmt::Formatter<W>) -> fmt::Result {
        let (moves, blocks) = (self.moves.load(SeqCst), self.blocks.load(SeqCst));
        write!(f, "at least {moves} moves, {} MiB read", blocks / 64)
    }
}
