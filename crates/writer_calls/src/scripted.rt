ghost use Rattle.std.specs.Prelude.{◌≡◌, find};
ghost use Rattle.writer_calls.specs.Script.{is_row_for};

use crate::answer::Answer;
use vss_names::Order;

/// One row of a writer's script: its answer to the `nth` order of a kind, counted from 1. No answer is a lost one.
#[derive(Clone, Copy, Debug, PartialEq, Eq)]
pub struct Scripted {
    pub order: Order,
    pub nth: u32,
    pub answer: Option<Answer>,
}

impl Scripted {
    /// Whether the row speaks of the `nth` order of this kind.
    pub fn is_for(&self, order: Order, nth: u32) -> bool
        ensures { result ≡ is_row_for order nth self.now }
    {
        self.order == order && self.nth == nth
    }

    /// The first row of a script that speaks of the `nth` order of this kind.
    pub fn first_for(script: &[Scripted], order: Order, nth: u32) -> Option<Scripted>
        ensures { result ≡ find (is_row_for order nth) script.now }
    {
        script.iter().find(|row| row.is_for(order, nth)).copied()
    }
}
