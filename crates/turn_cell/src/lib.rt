//! A turn that owns a machine, and the callers that step it one at a time.
//!
//! Each caller draws a ticket and steps the machine when its ticket is served. Every call is one entry of one history,
//! and each caller knows a beginning of it: contracts see a caller as its number, what it has `seen` of the history and
//! the entries that are `mine`, its own.
//!
//! After a call, also one that found no memory, the caller has seen all that it had seen, and its own call last; `front`
//! is the number of entries seen. `front` waits for nobody, also while another caller's step runs. `close` gives the
//! machine in the state to which the whole history leads; the history begins with what each caller has seen, and has
//! just its own calls of each. The words count modulo 2^64.
//!
//! No contract says who comes first, that a caller that waits is served, or that two threads ran.
#![tactic(auto)]

mod caller;
mod desk;
mod entry;
mod law;
mod machine;
mod plays;
mod seating;
mod turn;
mod view;

pub use caller::Caller;
pub use entry::{Answered, Entry};
pub use machine::Machine;
pub use turn::Turn;
