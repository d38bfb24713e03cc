//! The states of a writer: what an answer, a failed set, a new gathering and the end of a session make of them.
//!
//! `after` and `aborted` are the table of a writer's states. A `WriterRow` is what the coordinator keeps of one
//! writer: its state, the code of its failure, its level, its freeze time-out and the aborts that it was told of.
//! Contracts see a row as these fields and promise the table of `specs/WriterState.antt` exactly. No call takes
//! memory.
#![tactic(auto)]

mod said;
mod states;
mod writer_row;

pub use said::Said;
pub use states::{aborted, after, is_failed};
pub use writer_row::WriterRow;
