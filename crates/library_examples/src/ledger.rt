use vss_names::{Order, WriterError};
use writer_calls::{Answer, VssWriter};

/// A writer that is too busy for its first freeze, and vetoes it.
#[derive(Drop)]
pub struct Ledger {
    pub aborts: u32,
}

impl VssWriter for Ledger {
    ghost use Rattle.std.specs.Prelude.{IsSome};

    ghost may_answer = { λ w order nth answer. IsSome answer };

    ghost aborts_told = { λ w. w.aborts };

    fn on_order(&mut self, order: Order, nth: u32) -> Option<Answer> {
        match (order, nth) {
            (Order::Freeze, 1) => Some(Answer::Veto(WriterError::Retryable)),
            _ => Some(Answer::Ok),
        }
    }

    fn on_abort(&mut self) {
        self.aborts = self.aborts.saturating_add(1);
    }
}
