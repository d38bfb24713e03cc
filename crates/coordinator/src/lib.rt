//! The coordinator of a session: the registered writers with their rows and open orders, the agenda that runs, and what
//! becomes of the session's set.
//!
//! A `Coordinator` keeps no log. It *stands for* a course of the definitions, and contracts say what each call makes of
//! that course, by the course's own functions, and what it tells of that step in its `Effects`.
//! `specs/KeptCourse.antt` has what is kept of a course, `specs/OpenOrders.antt` the writers' mailboxes,
//! `specs/Beginning.antt` how an agenda begins, `specs/Effects.antt` what a call tells, and `specs/Coordinator.antt`
//! the words in which the conditions of the calls are said.
//!
//! A `RunningAgenda` keeps of an agenda that runs the groups left, the writers that froze and that thawed, and three
//! times. It *fits* an agenda with its log where it keeps what follows from that log (`specs/RunningAgenda.antt`).
//! After an agenda begins no call takes memory.
#![tactic(auto)]

mod before;
mod beginning;
mod codes;
mod coordinator;
mod effects;
mod kept_course;
mod posting;
mod register_fault;
mod row_change;
mod running_agenda;
mod writer_names;
mod writer_rows;

pub use coordinator::Coordinator;
pub use effects::Effects;
pub use register_fault::RegisterFault;
pub use running_agenda::RunningAgenda;
