//! The requestor's session: who owns it, its context and mode, its stage, its set and its last result.
//!
//! `Requestor` keeps the session that stands and the number of sets made so far; contracts see just these. They
//! promise that `check` is the definition of the checks, that each accepted call and the end of an agenda change the
//! session as the definitions say, and that its parts are told as they are. No call takes memory.
//!
//! `specs/Session.antt` has the session and what becomes of it, `specs/Check.antt` the checks that a call passes
//! first: by the owner, by the set in progress, by the running agenda, and by the table of stages, and
//! `specs/Requestor.antt` what is kept over all sessions.
#![tactic(auto)]

mod contexts;
mod mode;
mod requestor;
mod session;
mod session_call;
mod stage;
mod verdict;

pub use contexts::{context_of, has_writers};
pub use mode::Mode;
pub use requestor::Requestor;
pub use session::Session;
pub use session_call::SessionCall;
pub use stage::Stage;
pub use verdict::Verdict;
