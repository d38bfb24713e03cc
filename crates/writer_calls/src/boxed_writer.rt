//! A writer of whatever type, in a box.

use crate::answer::Answer;
use crate::vss_writer::VssWriter;
use vss_names::Order;

impl VssWriter for Box<dyn VssWriter> {
    ghost may_answer = { λ b order nth answer. (VssWriter-box b).may_answer b.value order nth answer };

    ghost aborts_told = { λ b. (VssWriter-box b).aborts_told b.value };

    fn on_order(&mut self, order: Order, nth: u32) -> Option<Answer> {
        (**self).on_order(order, nth)
    }

    fn on_abort(&mut self) {
        (**self).on_abort()
    }
}
