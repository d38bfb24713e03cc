//! The service as definitions: what a run is, move by move, and what each move is answered.
//!
//! One record is the state of the service, `State`, and the state after a list of acts is a fold of them, the oldest
//! first. All that is said of a run follows from it: who may move, what a move is answered, what its report is. There
//! is no table, counter, deadline, mailbox or slot in the definitions; the crates above keep those and stand for these.
#![tactic(auto)]

mod closing_row;
mod event;
pub mod laws;
mod lists;
mod outcome;
mod told;

pub use closing_row::ClosingRow;
pub use event::Event;
pub use lists::Lists;
pub use outcome::Outcome;
pub use told::Told;
pub use write_history::Evicted;
