//! Volumes whose new images writers may mend before they are final.
//!
//! Between the last two steps of a snapshot, PreFinalCommit and PostFinalCommit, a window is open on the newest image. In it a writer
//! changes the blocks of the image that it claimed, and no others. What it writes stands in an overlay, an area of its own, so neither
//! the volume nor its chain of old blocks changes. Contracts see a `RecoverVolume` as the copy-on-write volume, the overlay, the window
//! with its claims, and the sets of the final images. `specs/RecoverValue.antt` says for which volume histories with recovery writes it
//! stands, and each call for which it stands afterwards. All memory is taken by `new`.
#![tactic(auto)]

mod claim;
mod claims;
mod entries;
mod finals;
mod laws;
mod open_fault;
mod overlay;
mod recover_fault;
mod recover_revert;
mod recover_volume;

pub use claim::Claim;
pub use finals::MOST_CLAIMS;
pub use laws::{
    images_show_what_was_made_since_the_cut, recoveries_are_made_in_the_window,
    recoveries_leave_the_volume, what_is_taken_apart_is_taken_up,
};
pub use open_fault::OpenFault;
pub use recover_fault::RecoverFault;
pub use recover_revert::RecoverRevert;
pub use recover_volume::RecoverVolume;
