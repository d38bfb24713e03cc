//! The history of a run and of its volumes.
//!
//! A `Trail` is the list of a run's moves, at most `MOST_MOVES`; contracts see the list and the spare.
//! `specs/History.antt` has what a volume's history is, its effective writes and the images that stand, and what
//! each block reads; `specs/Slots.antt` has the slots that images use, which images go where a write lacks one, and
//! the copies that a diff area holds.
#![tactic(auto)]

mod actor;
mod evicted;
mod mark;
mod move_item;
mod trail;

pub use actor::Actor;
pub use evicted::Evicted;
pub use mark::Mark;
pub use move_item::Move;
pub use trail::{MOST_MOVES, Trail, TrailFault};
