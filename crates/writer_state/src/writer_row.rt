ghost use Rattle.std.specs.Prelude.{◌≡◌};
ghost use Rattle.writer_state.specs.WriterState.{first_row, row_aborted, row_after, row_ended, row_gathered};

use crate::said::Said;
use crate::states::{aborted, after, is_failed};
use vss_names::{Level, Order, WriterError, WriterState};

/// What the coordinator keeps of one writer.
#[derive(Clone, Copy, Debug, PartialEq, Eq)]
pub struct WriterRow {
    pub state: WriterState,
    /// Why the writer failed, where it has.
    pub code: Option<WriterError>,
    pub level: Level,
    /// The writer's own freeze time-out, in ticks.
    pub limit: u32,
    /// The failed sets that the writer was told of. The count stands still at 2^32 - 1.
    pub aborts: u32,
}

impl WriterRow {
    /// The row of a writer that was given no order yet.
    pub fn new(level: Level, limit: u32) -> WriterRow
        ensures { result ≡ first_row level limit }
    {
        WriterRow {
            state: WriterState::Unknown,
            code: None,
            level,
            limit,
            aborts: 0,
        }
    }

    /// The row once the writer said this to this order.
    pub fn answered(self, order: Order, said: Said) -> WriterRow
        ensures { result ≡ row_after order said self }
    {
        WriterRow {
            state: after(order, said),
            code: said.code(),
            ..self
        }
    }

    /// The row once a set has failed in which the writer takes part.
    pub fn told_abort(self) -> WriterRow
        ensures { result ≡ row_aborted self }
    {
        if is_failed(self.state) {
            return self;
        }
        WriterRow {
            state: aborted(self.state),
            aborts: self.aborts.saturating_add(1),
            ..self
        }
    }

    /// The row once the writers are asked anew what they have: what came before is forgotten, but for the aborts.
    pub fn gathered(self) -> WriterRow
        ensures { result ≡ row_gathered self }
    {
        WriterRow {
            aborts: self.aborts,
            ..WriterRow::new(self.level, self.limit)
        }
    }

    /// The row once the session has ended.
    pub fn ended(self) -> WriterRow
        ensures { result ≡ row_ended self }
    {
        let state = aborted(self.state);
        WriterRow { state, ..self }
    }
}
