ghost use Rattle.std.specs.Prelude.{None};

use crate::failed_sets::FailedSets;
use io_edge::{OutSink, Sink};
use vss_names::Failed;

/// The standard output; which sets failed is noted of the report that goes out.
#[derive(Drop)]
pub struct NotingSink {
    pub sink: OutSink,
    pub failed: FailedSets,
}

impl Sink for NotingSink {
    ghost taken = { λ _. None };

    ghost count = { λ s. s.sink };

    fn write(&mut self, piece: &[u8]) -> Result<usize, Failed> {
        let count = self.sink.write(piece)?;
        self.failed.take_in(piece.get(..count).unwrap_or(&[]));
        Ok(count)
    }

    fn faults(&self) -> u64 {
        self.sink.faults()
    }
}
