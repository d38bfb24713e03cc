ghost use Rattle.std.specs.Prelude.{◌≡◌, None};
ghost use Rattle.vss_shards.specs.Calls.{IsCollected, IsGivenBack};
ghost use Rattle.vss_shards.specs.Shards.{HasPartOf, GoesOn};

use crate::collect_fault::CollectFault;
use crate::draft::Draft;
use crate::image_point::ImagePoint;
use crate::part::Part;
use crate::shard::Shard;
use volume_device::Device;
use vss_names::MOST_IMAGES;

/// Holds a shard for a cut, and adds its part to the draft: the number of its next image, and the length of its list, which cannot
/// grow while the shard is held.
pub fn collect<D: Device>(shard: &mut Shard<D>, draft: &mut Draft) -> Result<(), CollectFault>
    requires { draft.old.recorded ≡ None }
    ensures collect { IsCollected shard.old shard.new draft.old draft.new result }
    ensures goes_on { GoesOn shard.old shard.new }
{
    if shard.held.is_some() {
        return Err(CollectFault::Held);
    }
    if shard.images.len() >= MOST_IMAGES {
        return Err(CollectFault::Full);
    }
    if shard.last == u32::MAX {
        return Err(CollectFault::Full);
    }
    let part = Part {
        volume: shard.number,
        image: shard.last + 1,
        count: shard.entries.len() as u32,
    };
    if draft.add(part).is_err() {
        return Err(CollectFault::OutOfMemory);
    }
    shard.last = part.image;
    shard.held = Some(part);
    Ok(())
}

/// Takes the part of a held shard out of the draft, and lets the shard go. Where the cut was recorded the shard gets the image of that
/// part; no memory is taken.
pub fn give_back<D: Device>(shard: &mut Shard<D>, draft: &mut Draft)
    requires { HasPartOf draft.old shard.old }
    ensures given { IsGivenBack shard.old shard.new draft.old draft.new }
    ensures goes_on { GoesOn shard.old shard.new }
{
    let Some(part) = shard.held else {
        unreachable!();
    };
    draft.take_out(part);
    let recorded = draft.recorded.is_some();
    if !recorded {
        shard.held = None;
        return;
    }
    shard.volume.cut(part.image);
    shard.images.push_reserved(ImagePoint {
        image: part.image,
        count: part.count,
    });
    shard.held = None;
}
