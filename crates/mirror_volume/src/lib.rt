//! Volumes with images under one contract, and volumes with whole mirrors.
//!
//! An `ImageVolume` stands for a volume history, by a relation of its own; each call says for which history it stands afterwards. A
//! copy-on-write volume is one. A `MirrorVolume` is another: it has whole mirrors, one of which is split off at a cut and is brought
//! into step again later. Contracts see it as its devices, the image and the stale blocks of each mirror, and the sets of its images.
//! `replies` answers a list of commands, and is proved once for both.
#![tactic(auto)]

mod allowing;
mod command;
mod cow_images;
mod image_volume;
mod laws;
mod mirror;
mod mirror_images;
mod mirror_volume;
mod no_mirror;
mod reply_list;
mod replying;
mod resync;
mod said;
mod stale_blocks;
mod sync_fault;
mod synced;

pub use allowing::may_be_given;
pub use command::Command;
pub use image_volume::ImageVolume;
pub use laws::{
    cuts_are_refused_for_a_cause, plain_replies_are_the_definitions,
    steps_bring_a_mirror_into_step, two_volumes_reply_alike,
};
pub use mirror::Mirror;
pub use mirror_volume::MirrorVolume;
pub use no_mirror::NoMirror;
pub use reply_list::ReplyList;
pub use replying::replies;
pub use said::Said;
pub use sync_fault::SyncFault;
pub use synced::Synced;
