//! Volumes that hold files, and images of them that were cut together, to be kept beside one another and taken up again.
//!
//! Contracts see a `Store` as the group of its volumes, their names, and the last set that was given. `specs/StoreValue.antt` says for
//! which whole copies of all volumes and images it stands, and each call's contract is a step of these copies (`specs/Steps.antt`), so
//! that what holds of every list of steps (`specs/Course.antt`) holds of every list of calls.
//!
//! The contracts promise that an image shows the file that its volume had at the set's one cut, until it is deleted, its volume is
//! reverted past it, or it is reported as evicted; and that what lasts of a store that was closed is what the next opening finds (`laws`).
#![tactic(auto)]

mod bytes;
mod capture_fault;
mod capturing;
mod closed;
mod cut_fault;
mod cutting;
mod flushing;
mod head;
mod job;
mod jobs;
mod laws;
mod messages;
mod naming;
mod new_fault;
mod open_fault;
mod opening;
mod ordering;
mod pass;
mod pass_fault;
mod piece;
mod refused;
mod report;
mod show_fault;
mod showing;
mod store;
mod updating;
mod which;
mod written;

pub use capture_fault::CaptureFault;
pub use closed::Closed;
pub use cut_fault::CutFault;
pub use head::Head;
pub use job::Job;
pub use jobs::Jobs;
pub use laws::{
    a_show_is_a_step, calls_follow_one_another, files_come_back, images_are_of_their_cut,
    images_come_of_cuts, sets_are_cut_once, shown_is_of_its_cut, what_is_closed_is_opened,
    what_is_under_way_is_found, what_lasts_is_found,
};
pub use new_fault::NewFault;
pub use open_fault::OpenFault;
pub use ordering::{keep_in_order, settle_in_order, update_in_order};
pub use pass::Pass;
pub use pass_fault::PassFault;
pub use refused::Refused;
pub use report::Report;
pub use show_fault::ShowFault;
pub use store::Store;
pub use which::Which;
