//! Copy-on-write volumes: a group of volumes over one diff area, with the images that stand of them.
//!
//! A block's old bytes are copied into a slot of the area before its first overwrite since the newest cut. Contracts see a
//! `CowGroup` as its devices, its area, and for each volume the sets of its images; `specs/StandsFor.antt` says for which
//! histories of effective writes and images a group stands, and each call for which it stands afterwards. All memory is taken
//! by `new` or `resume`. A `CowVolume` is one volume by itself, with an area of its own; its calls speak of the one history that it
//! stands for.
#![tactic(auto)]

mod calling;
mod cause;
mod copies;
mod copying;
mod cow_group;
mod cow_volume;
mod ending;
mod image_fault;
mod laws;
mod listing;
mod messages;
mod reads;
mod renewing;
mod resume_fault;
mod resuming;
mod revert_fault;
mod reverts;
mod write_fault;
mod written;

pub use cause::Cause;
pub use cow_group::CowGroup;
pub use cow_volume::CowVolume;
pub use image_fault::ImageFault;
pub use laws::{what_is_synced_is_kept, what_is_taken_apart_is_taken_up};
pub use resume_fault::ResumeFault;
pub use resuming::pool_of;
pub use revert_fault::RevertFault;
pub use write_fault::WriteFault;
pub use written::Written;
