//! Which slots of a diff area are free.
//!
//! A slot is the place of one old block. Contracts see a `SlotPool` as a list with one truth value for each slot,
//! in order of slots: whether it is free. They promise that `take` gives the lowest free slot, and None exactly
//! where none is free, that `give` frees the one slot that it was given, and that no other slot changes. After
//! `new` no call takes memory.
#![tactic(auto)]

mod slot_pool;

pub use slot_pool::SlotPool;
