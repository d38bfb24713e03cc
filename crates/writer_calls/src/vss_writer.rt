ghost use Rattle.std.specs.Prelude.{◌≡◌};

use crate::answer::Answer;
use vss_names::Order;

/// A writer: an application that makes its data fit for a snapshot. Who drives a world with writers of their own
/// asks them by these calls. (The orders stand for the events of the SDK's `CVssWriter`, and an abort for OnAbort.)
///
/// Contracts see which answers a writer may give, and how many aborts it was told of.
pub trait VssWriter: Send + Drop {
    ghost use Rattle.std.specs.Prelude.{ℕ, Option};
    ghost use Rattle.vss_names.specs.declared.order.Order.{Order};
    ghost use Rattle.writer_state.specs.WriterState.{one_more};
    ghost use Rattle.writer_calls.specs.declared.answer.Answer.{Answer};

    /// Whether the writer, as it is, may give this answer to the nth order of this kind.
    ghost may_answer: { Self → Order → ℕ → Option Answer → Type 0 };

    /// The number of aborts that the writer was told of. It stands still at 2^32 - 1.
    ghost aborts_told: { Self → ℕ };

    /// Gives the writer the `nth` order of this kind, counted from 1, and takes its answer. No answer is a lost
    /// one: the writer will never answer this order.
    fn on_order(&mut self, order: Order, nth: u32) -> Option<Answer>
        ensures answer { may_answer self.old order nth result }
        ensures same_aborts { aborts_told self.new ≡ aborts_told self.old };

    /// Tells the writer that the set in which it takes part has failed.
    fn on_abort(&mut self)
        ensures { aborts_told self.new ≡ one_more (aborts_told self.old) };
}
