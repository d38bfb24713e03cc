//! Which slot holds which old block of which image: the chains of copies of the volumes of a group.
//!
//! Contracts see a `GroupMap` as a list of maps, one for each volume: its number of blocks, its images in order of sets, and one row for
//! each slot of the diff area, the image and block for which the slot is noted, if any. They say nothing of how a copy is found. They
//! promise that `find` answers the slot of the first image, from the asked one to the newest, that has the block, and that a call on one
//! volume leaves the maps of all others as they were. A `DiffMap` is the map of a group of one. There an image that goes gives exactly its
//! own slots back to the pool, or its copies to the next older image, and every other image keeps what is found for it. After `new` no
//! call takes memory.
#![tactic(auto)]

mod copied;
mod counts;
mod diff_map;
mod entry;
mod going;
mod group_map;
mod handed_down;
mod image_count;
mod index;
mod links;
mod of_volume;
mod row;

pub use copied::Copied;
pub use counts::{place_after, place_from};
pub use diff_map::DiffMap;
pub use entry::Entry;
pub use going::Going;
pub use group_map::GroupMap;
pub use handed_down::HandedDown;
pub use index::next_older;
