ghost use Rattle.std.specs.Prelude.{◌≡◌, ◌<◌, ◌≤◌, [], ◌∷◌, None, is_some, length, vec_capacity, IfOk};
ghost use Rattle.write_history.specs.History.{fresh};
ghost use Rattle.cow_volume.specs.OneVolume.{StandsForOne};
ghost use Rattle.vss_shards.specs.Journals.{most_volumes};
ghost use Rattle.vss_shards.specs.Shards.{IsShard, shard_value};

use crate::entry::Entry;
use crate::image_point::ImagePoint;
use crate::part::Part;
use cow_volume::CowVolume;
use std::alloc::Global;
use std::marker::Model;
use volume_device::Device;
use vss_names::{MOST_IMAGES, OutOfMemory};

/// How many entries a list or the journal may have.
pub(crate) const MOST_ENTRIES: usize = 1_048_576;

/// A volume with the list of its entries and the points of its images. While it is held for a cut it is not written. Contracts see its
/// number, its volume, its entries, its images with their points, the last number of an image, and the part for which it is held.
#[derive(Drop)]
pub struct Shard<D: Device> {
    pub(crate) number: u32,
    pub(crate) volume: CowVolume<D>,
    pub(crate) entries: Vec<Entry>,
    pub(crate) images: Vec<ImagePoint>,
    pub(crate) last: u32,
    pub(crate) held: Option<Part>,
    /// Whether the journal keeps a place for its next write.
    pub(crate) has_place: bool,
}

impl<D: Device> Model for Shard<D> {
    ghost use Rattle.std.specs.Prelude.{◌≤◌, vec_capacity};
    ghost use Rattle.vss_shards.specs.Shards.{ShardValue, IsShard, shard_value, most_images};

    ghost Value = { ShardValue D };

    ghost view = { λ s. shard_value s.number s.volume s.entries.items s.images.items s.last s.held };

    ghost invariant = { λ s. IsShard D.told (shard_value s.number s.volume s.entries.items s.images.items s.last s.held) × (most_images ≤ vec_capacity s.images) };
}

impl<D: Device> Shard<D> {
    /// A shard of a volume of zeros without images. It takes all memory that its images need.
    pub(crate) fn new(
        alloc: Global,
        number: u32,
        volume: CowVolume<D>,
    ) -> Result<Shard<D>, OutOfMemory>
        requires in_range { number < most_volumes }
        requires fresh { StandsForOne D.told volume fresh }
        ensures { IfOk result (λ shard. shard ≡ shard_value number volume [] [] 0 None) }
    {
        let images = Vec::with_capacity(alloc, MOST_IMAGES)?;
        Ok(Shard {
            number,
            volume,
            entries: Vec::new(alloc),
            images,
            last: 0,
            held: None,
            has_place: false,
        })
    }

    /// Its number among the shards.
    pub fn number(&self) -> u32
        ensures { result ≡ self.now.number }
    {
        self.number
    }

    /// Whether it is held for a cut.
    pub fn is_held(&self) -> bool
        ensures held { result ≡ is_some self.now.held }
        ensures kept { IsShard D.told self.now }
    {
        self.held.is_some()
    }

    /// Gives up the place that the journal keeps for its next write, and answers whether there was one.
    pub(crate) fn give_up_place(&mut self) -> bool
        ensures { self.new ≡ self.old }
    {
        let had = self.has_place;
        self.has_place = false;
        had
    }
}
