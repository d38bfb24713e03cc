//! The session, the sets that were started, the writers with the agenda that runs, what the session has named, and the
//! clock.
//!
//! Contracts see a `Sessions` as its parts, and `specs/Keeps.antt` says which states of the definitions they keep: all of
//! a state but the volumes, and which of them are in a set. Each call promises that its event waits exactly as the
//! definitions say, or that it is an enabled move: its reply and effects are those of the definitions, and what is kept
//! afterwards is the state after it (`specs/Moves.antt`). The images of a set that fails go, and those of a set that is
//! released with its session; the layer above drops them, since no device is known here.
//!
//! A call asks only that some state that acts lead to is kept; the caller need not say which. Of the session lines only
//! `component`, `document`, `start`, `gather`, `prepare`, `snapshot` and `complete` may run out of memory, and then
//! nothing has changed.
#![tactic(auto)]

mod agenda_lines;
mod agendas;
mod answering;
mod called;
mod calls;
mod ended;
mod endings;
mod known_writers;
mod naming_lines;
mod session_lines;
mod session_move;
mod sessions;
mod set_entry;
mod set_facts;
mod set_rows;

pub use called::Called;
pub use session_move::SessionMove;
pub use sessions::Sessions;
pub use set_facts::SetFacts;
