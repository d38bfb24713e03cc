//! A run of a scenario over the core of the service: each turn of an actor makes at most one move, which is added to the
//! trail and whose lines are added to the report.
//!
//! Contracts see a run as its scenario, its moves, its devices and the report so far. What it promises: the trail is legal, the lines are the
//! report so far, the device of a volume holds its content where it and its area's tell, and the fault marks are at most the
//! devices' faults. Once it is closed each area's device stands for the copies of the images, where it and its volumes' tell.
//!
//! A run is played to its end in turn, or by its actors in threads, as the machine of one turn whose history its trail is.
#![tactic(auto)]

mod acting;
mod actor_loop;
mod asking;
mod closing;
mod devices;
mod digests;
mod end_digests;
mod gate;
mod given;
mod groups;
mod guest;
mod idle;
mod in_threads;
pub mod in_turn;
mod line;
mod moved;
mod new_groups;
mod open_gate;
mod play;
mod play_fault;
mod room;
mod service;
mod step_fault;
mod turn;

pub use acting::a_history_is_a_trail;
pub use actor_loop::take_turns;
pub use gate::Gate;
pub use given::Given;
pub use in_threads::{actors_of, play_all};
pub use in_turn::play_in_turn;
pub use moved::Moved;
pub use new_groups::open_new;
pub use open_gate::OpenGate;
pub use play::Play;
pub use play_fault::PlayFault;
pub use service::{MOST_MOVES, Service};
pub use step_fault::StepFault;
