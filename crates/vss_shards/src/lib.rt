//! Volumes behind locks of their own, with one journal.
//!
//! Each volume has a lock, and the journal another, and all images of a cut belong to one moment. `Shards::write` writes under the
//! volume's lock, and takes the journal's only for the entry, so that writes of several volumes run side by side; whatever else is
//! done to a volume needs its own lock alone. All promises stand on functions that are lent what the locks keep: a `Shard` (a volume, the list of its entries and the points of its images) and the
//! `Journal` (all entries in one order, and the recorded cuts). A cut goes in three steps: `collect` holds each shard and notes how
//! long its list is, `record_cut` compares these numbers with the journal and stores them, `give_back` makes the image and lets the
//! shard go. Callers take the locks, a shard's before the journal's; no order of locks is proved, and nothing is promised of waiting.
//! What each type keeps (`specs/Shards.antt`, `specs/Journals.antt`) is known wherever a lock is taken. The law of the crate is in
//! `laws`: the images of one recorded cut are the volumes after one and the same beginning of the journal.
#![tactic(auto)]

mod collect_fault;
mod cutting;
mod draft;
mod entry;
mod gather_fault;
mod gathering;
mod image_point;
mod journal;
mod laws;
mod part;
mod reading;
mod record_fault;
mod recorded_cut;
mod shard;
mod shard_fault;
mod shards;
mod small;
mod writing;

pub use collect_fault::CollectFault;
pub use cutting::{collect, give_back};
pub use draft::Draft;
pub use entry::Entry;
pub use gather_fault::GatherFault;
pub use gathering::gather;
pub use journal::Journal;
pub use laws::{
    a_recorded_cut_makes_its_image, images_of_a_cut_are_of_one_moment, what_goes_on_goes_on,
};
pub use part::Part;
pub use reading::{read_image_on, read_on};
pub use record_fault::RecordFault;
pub use shard::Shard;
pub use shard_fault::ShardFault;
pub use shards::Shards;
pub use small::Small;
pub use writing::write_on;
