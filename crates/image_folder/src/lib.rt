//! A folder that keeps files as volumes, and images of them that were cut together, for the programs that work on one: its files as devices under an
//! `image_store`, its lock, its state and its marker, and the passes and commits of an update.
//!
//! `create` makes a folder, `open` opens one, `update` brings volumes to files, and `Opened::end` ends a call. A call that fails has said why in one
//! line on the standard error, and answers a `Status`.
#![tactic(auto)]

/// The status of this name, of which a line is printed.
#[macro_export]
macro_rules! ended {
    ($program:expr, $status:ident; $($line:tt)*) => {
        $crate::said(&$program, $crate::Status::$status, format_args!($($line)*))
    };
}

mod creating;
mod dates;
mod device;
mod device_file;
mod ended;
mod file_input;
mod folder;
mod forecast;
mod freeing;
mod front;
mod growing;
mod job;
mod jobs;
mod left;
mod locking;
mod longer;
mod longer_volume;
mod marker;
mod named_file;
mod naming;
mod new_store;
mod opened;
mod own_file;
mod pair;
mod parts;
mod program;
mod progress;
mod reverting;
mod settling;
mod shape;
mod showing;
mod source;
mod state;
mod state_file;
mod status;
mod sum_fault;
mod together;
mod updating;
mod volumes;
mod way;

pub use creating::{create, make_new};
pub use dates::{Dated, dated_in, is_note};
pub use device::two_changed_numbers_are_found;
pub use ended::{note, said, say};
pub use file_input::{ABSENT, FileInput};
pub use folder::{AREA, Folder, STATE};
pub use forecast::{goes_up_to, want_of, written_between};
pub use growing::grow_slots;
pub use job::{Job, brought_of, capture, compare, say_unseen, sets_of};
pub use longer_volume::grow_volume;
pub use marker::Marker;
pub use naming::{check_once, is_part, may_name, name_in, parts_in, which_at};
pub use opened::{Files, Opened, open};
pub use own_file::parent_of;
pub use pair::{Pair, number_of, pairs_of, set_of};
pub use parts::{PART, blocks_of_file};
pub use program::{Program, ProgramName};
pub use progress::Progress;
pub use showing::show_parts;
pub use source::Source;
pub use status::Status;
pub use together::Brought;
pub use updating::{add_jobs, update, update_by};
pub use volumes::{add, remove};
pub use way::Way;
