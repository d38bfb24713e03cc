//! The core of the service: sessions, sets, images and volumes over devices. It is seen as what it stands for, a list of acts:
//! each event that is enabled is answered as the definitions say and adds its act, or wants memory and changes nothing.
//!
//! `provider` has the volumes and their images, `sessions` has sessions, sets, writers and time; the core joins the two. A step asks for
//! a witness that the core stands for some acts, few enough; `specs/Stands.antt` says what that means, and `specs/Moves.antt` what a step
//! promises. All memory but that of `component`, `document`, `start`, `gather`, `prepare`, `snapshot`, `complete` and `digests` is taken by
//! `new`.
#![tactic(auto)]

mod beginning;
mod calling;
mod evicted_images;
mod fingerprint;
mod lines;
mod listed_sets;
mod marked;
mod passing;
mod reading;
mod removing;
mod reply;
mod settling;
mod showing;
mod stepping;
mod world;
mod writing;

pub use reply::Reply;
pub use world::World;
