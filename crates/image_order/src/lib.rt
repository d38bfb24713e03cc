//! In which order an update copies, commits and overwrites, so that what a loss of power leaves opens to the same images.
//!
//! Contracts see a `StateFolder` as what may be found under its names after a loss of power, and `Passes` as which of these states open to the
//! images from before the call, whatever has lasted of the blocks that were written. They hold also if a call fails, so at every moment.
#![tactic(auto)]

mod copied;
mod held;
mod laws;
mod mem_file;
mod mem_folder;
mod name;
mod ordering;
mod passes;
mod reverts;
mod state_folder;

pub use copied::Copied;
pub use held::Held;
pub use laws::an_update_is_whole;
pub use mem_file::MemFile;
pub use mem_folder::MemFolder;
pub use name::Name;
pub use ordering::{
    commit, commit_in_order, end_in_order, mark, overwrite_in_order, overwrite_marked,
    revert_in_order, unmark,
};
pub use passes::Passes;
pub use reverts::Reverts;
pub use state_folder::StateFolder;
