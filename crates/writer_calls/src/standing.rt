use vss_names::Order;

/// An order that is open: it was sent, and neither answered nor cancelled.
#[derive(Clone, Copy, Debug, PartialEq, Eq)]
pub struct Standing {
    /// Its number among all orders of its mailbox, counted from 1. No two orders of a mailbox have the same.
    pub number: u64,
    pub order: Order,
    /// Its number among the orders of its kind in its mailbox, counted from 1.
    pub nth: u32,
}
