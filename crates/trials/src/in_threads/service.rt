//! The service over streams and devices in memory.

use crate::in_threads::counting_gate::CountingGate;
use crate::in_threads::failing::Failing;
use crate::in_threads::trial_error::TrialError;
use io_edge::{MemSink, MemSource, Sink, Source};
use std::alloc::Global;
use std::fmt;
use std::sync::Wait;
use std::thread::Threads;
use volume_device::{Maker, MemMaker};
use vss_main::{Status, run};

/// How many bytes the source gives at a call.
const PIECE: usize = 16;

/// What came of a call of the service.
#[derive(Drop)]
pub struct Called {
    pub status: Status,
    source: MemSource,
    sink: MemSink,
    maker: MemMaker,
    gate: CountingGate,
}

impl Called {
    /// What the service wrote.
    pub fn written(&self) -> &[u8] {
        self.sink.taken()
    }
}

impl fmt::Display for Called {
    fn fmt<W: fmt::Write>(&self, f: &mut fmt::Formatter<W>) -> fmt::Result {
        write!(
            f,
            "made {} back {} faults {} source {} sink {} {}",
            self.maker.names().len(),
            self.maker.returned().len(),
            self.maker.faults(),
            self.source.faults(),
            self.sink.faults(),
            self.gate
        )
    }
}

/// Calls the service with these words, over this input.
pub fn call<R: Threads + Wait + Sync>(
    rt: &R,
    alloc: Global,
    words: &[String],
    input: &[u8],
    failing: Failing,
) -> Result<Called, TrialError> {
    let mut source = MemSource::new(input.to_vec(alloc)?, PIECE, failing.source);
    let mut sink = MemSink::with_room(alloc, failing.room, failing.sink)?;
    let mut maker = MemMaker::new(alloc, failing.plan);
    let gate = CountingGate::new();
    let status = run(rt, alloc, words, &mut source, &mut sink, &mut maker, &gate);
    Ok(Called {
        status,
        source,
        sink,
        maker,
        gate,
    })
}
