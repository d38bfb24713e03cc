//! The agenda of a snapshot set: who is asked, who has answered, what comes next.
//!
//! An agenda is a list of groups in order. A group is closed when each of its members has answered or is done, and
//! the next one opens in that move. `specs/Agenda.antt` has the agenda with the log of what was said in it,
//! `specs/Limits.antt` the three limits of time, and `specs/Course.antt` the course of a session: the agenda that
//! runs, the writers' rows, the participants and the outcome of the set.
//!
//! An `Agenda` keeps no log. Contracts see it as the list of the groups that are left, and promise that it begins
//! with those of the agenda in which nothing is said, and advances as `specs/Advance.antt` says. That the groups left
//! of an agenda with a log advance alike, whoever says what in the open group, is one law:
//! `groups_left-all_say` of `proofs/GroupsLeft.antt`. After `new` no call takes memory.
#![tactic(auto)]

mod agenda;
mod cursor;
mod distinct;
mod group;
mod kind;
mod limit;
mod member;
mod place;
mod rows;
mod writer_set;

pub use agenda::Agenda;
pub use distinct::are_distinct;
pub use group::Group;
pub use kind::Kind;
pub use limit::Limit;
pub use member::Member;
pub use place::Place;
pub use writer_set::WriterSet;
