ghost use Rattle.std.specs.Prelude.{◌≡◌, ◌≤◌, [], IfOk, vec_capacity};

use crate::copied::Copied;
use crate::image_count::ImageCount;
use std::alloc::Global;
use vss_names::{MOST_IMAGES, OutOfMemory};

/// One volume of a group: its blocks among those of all volumes, its images, and how many slots hold copies for each.
#[derive(Drop)]
pub struct OfVolume {
    /// Its first block.
    pub base: u32,
    pub blocks: u32,
    /// How many slots are noted for it.
    pub used: u32,
    pub images: Vec<u32>,
    pub counts: Vec<ImageCount>,
}

impl OfVolume {
    ghost use Rattle.std.specs.Prelude.{Some};
    ghost use Rattle.diff_map.specs.Groups.{IsEmpty, own, part_of};

    /// A volume without images. It takes all memory that it ever needs.
    pub fn new(alloc: Global, base: u32, blocks: u32) -> Result<OfVolume, OutOfMemory>
        ensures { IfOk result (IsEmpty base blocks) }
    {
        Ok(OfVolume {
            base,
            blocks,
            used: 0,
            images: Vec::with_capacity(alloc, MOST_IMAGES)?,
            counts: Vec::with_capacity(alloc, MOST_IMAGES)?,
        })
    }

    /// What a copy is to this volume: one of a block of its own, or none.
    pub fn own(&self, copied: Copied) -> Option<Copied>
        ensures { result ≡ own (part_of self.now) (Some copied) }
    {
        if copied.block < self.base || copied.block - self.base >= self.blocks {
            return None;
        }
        Some(Copied {
            set: copied.set,
            block: copied.block - self.base,
        })
    }
}
