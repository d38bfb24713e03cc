ghost use Rattle.std.specs.Prelude.{◌≡◌, ◌+◌, ◌-◌, ◌<◌, ◌^◌, None};
ghost use Rattle.writer_calls.specs.Mailbox.{closed, empty, number_of, sent_to, standing};

use crate::order_counts::OrderCounts;
use crate::standing::Standing;
use vss_names::Order;

/// What is kept of a writer's orders: how many it was sent, and which one is open.
#[derive(Clone, Copy, Debug, PartialEq, Eq)]
pub struct Mailbox {
    pub sent: OrderCounts,
    pub open_order: Option<Order>,
}

impl Mailbox {
    /// A mailbox to which nothing was sent.
    pub fn new() -> Mailbox
        ensures { result ≡ empty }
    {
        Mailbox {
            sent: OrderCounts {
                identify: 0,
                prepare_backup: 0,
                prepare_snapshot: 0,
                freeze: 0,
                thaw: 0,
                post_snapshot: 0,
                backup_complete: 0,
            },
            open_order: None,
        }
    }

    /// The open order, with its numbers; none where no order is open.
    pub fn standing(&self) -> Option<Standing>
        ensures { result ≡ standing self.now }
    {
        match self.open_order {
            Some(order) => Some(Standing {
                number: self.sent.total(),
                order,
                nth: self.sent.of(order),
            }),
            None => None,
        }
    }

    /// Opens an order, and answers its number.
    pub fn send(&mut self, order: Order) -> u64
        requires room { number_of self.old < 2 ^ 32 - 1 }
        requires closed { self.old.open_order ≡ None }
        ensures after { self.new ≡ sent_to order self.old }
        ensures number { result ≡ number_of self.old + 1 }
    {
        self.sent.add(order);
        self.open_order = Some(order);
        self.sent.total()
    }

    /// Closes the open order, if one is.
    pub fn close(&mut self)
        ensures { self.new ≡ closed self.old }
    {
        self.open_order = None;
    }
}
