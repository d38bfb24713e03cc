//! What each seat at the table knows. No value of these types is made: they stand in proofs alone.
use crate::entry::Entry;
use std::collections::LinkedList;

/// What one caller knows: its number, the beginning of the history that it has seen, and its own entries.
pub struct Known<C, R> {
    pub number: u64,
    pub seen: LinkedList<Entry<C, R>>,
    pub mine: LinkedList<Entry<C, R>>,
}

pub enum View<M, C, R> {
    /// It has made so many callers.
    Maker(u64),
    Idle(Known<C, R>),
    /// It holds a ticket.
    Waiting(Known<C, R>, u64),
    /// It holds a ticket, and the machine, which came out in this state.
    Holding(Known<C, R>, u64, M),
    /// It speaks for the callers that it took in. With none of them it is spent.
    Keeper(LinkedList<Known<C, R>>),
}
