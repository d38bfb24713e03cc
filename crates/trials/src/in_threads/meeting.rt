//! Two lanes that wait for each other, before a move and after it: while a gate is told, no turn is held.

use crate::in_threads::flag::seen;
use crate::in_threads::trial_error::TrialError;
use io_edge::{MemSink, MemSource};
use std::alloc::Global;
use std::sync::Wait;
use std::sync::atomic::AtomicBool;
use std::sync::atomic::Ordering::SeqCst;
use std::thread::Threads;
use volume_device::MemMaker;
use vss_main::run;
use vss_names::{Numbers, OutOfMemory};
use vss_play::{Gate, Moved};
use write_history::Actor;

/// Two lanes of one write each.
const TWO_LANES: &[u8] =
    b"scenario 1\nvolume C 2 2\nlane a\nwrite C 0 fill 7\nlane b\nwrite C 1 fill 8\n";

/// A place where each of two lanes raises its flag and waits for the other's.
#[derive(Drop)]
struct Meeting {
    first: AtomicBool,
    second: AtomicBool,
    first_met: AtomicBool,
    second_met: AtomicBool,
}

/// A gate by which the lanes meet before they move and after it.
#[derive(Drop)]
struct Meetings {
    before: Meeting,
    after: Meeting,
}

impl Meeting {
    fn new() -> Meeting {
        Meeting {
            first: AtomicBool::new(false),
            second: AtomicBool::new(false),
            first_met: AtomicBool::new(false),
            second_met: AtomicBool::new(false),
        }
    }

    /// An actor comes to the place. It does not wait where it is no lane.
    fn come(&self, actor: Actor) {
        match actor {
            Actor::Lane(0) => {
                self.first.store(true, SeqCst);
                if seen(&self.second) {
                    self.first_met.store(true, SeqCst);
                }
            }
            Actor::Lane(1) => {
                self.second.store(true, SeqCst);
                if seen(&self.first) {
                    self.second_met.store(true, SeqCst);
                }
            }
            _ => {}
        }
    }

    /// Whether each lane saw the other.
    fn has_met(&self) -> bool {
        self.first_met.load(SeqCst) && self.second_met.load(SeqCst)
    }
}

impl Gate for Meetings {
    fn before(&self, actor: Actor) {
        self.before.come(actor);
    }

    fn after(&self, actor: Actor, _moved: Moved) {
        self.after.come(actor);
    }
}

/// The one word `run`.
fn run_word(alloc: Global) -> Result<Vec<String>, OutOfMemory> {
    let mut words = Vec::new(alloc);
    words.push(String::from_str(alloc, "run")?)?;
    Ok(words)
}

/// Runs the two lanes, and writes the status and whether they met before a move and after it.
pub fn meet<R: Threads + Wait + Sync>(rt: &HostRuntime, threads: &R) -> Result<(), TrialError> {
    let words = run_word(rt.alloc())?;
    let meetings = Meetings {
        before: Meeting::new(),
        after: Meeting::new(),
    };
    let text = TWO_LANES.to_vec(rt.alloc())?;
    let mut source = MemSource::new(text, 64, Numbers::new(rt.alloc()));
    let mut sink = MemSink::with_room(rt.alloc(), 4096, Numbers::new(rt.alloc()))?;
    let mut maker = MemMaker::new(rt.alloc(), Vec::new(rt.alloc()));
    let status = run(
        threads,
        rt.alloc(),
        &words,
        &mut source,
        &mut sink,
        &mut maker,
        &meetings,
    );
    let (before, after) = (meetings.before.has_met(), meetings.after.has_met());
    println!(rt;
        "status {} met before {before} after {after}",
        status.code()
    )?;
    Ok(())
}
