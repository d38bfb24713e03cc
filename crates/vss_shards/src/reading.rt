ghost use Rattle.std.specs.Prelude.{◌≡◌, ◌<◌, true, length, IfErr, OnOk};
ghost use Rattle.cow_volume.specs.Calls.{IsUnfailed, is_among};
ghost use Rattle.cow_volume.specs.OneVolume.{blocks_of, image_sets, HasOneCause, HasOneImageCause};
ghost use Rattle.vss_shards.specs.Shards.{IsAfterAll, IsAtPoint, IsRead, GoesOn};

use crate::shard::Shard;
use block_data::BLOCK;
use cow_volume::{Cause, ImageFault};
use volume_device::Device;

/// Reads a block of a shard as it is into `out`, which after a failed read holds any bytes.
pub fn read_on<D: Device>(shard: &mut Shard<D>, block: u32, out: &mut [u8]) -> Result<(), Cause>
    requires { length out.old ≡ BLOCK }
    ensures in_range { OnOk result (block < blocks_of shard.old.volume) }
    ensures now { OnOk result (IsAfterAll D.told shard.old block out.new) }
    ensures same { OnOk result (IsUnfailed D.count shard.old.volume shard.new.volume) }
    ensures cause { IfErr result (HasOneCause D.count block shard.old.volume shard.new.volume) }
    ensures read { IsRead D.Device shard.old shard.new }
    ensures goes_on { GoesOn shard.old shard.new }
{
    shard.volume.read_into(block, out)
}

/// Reads a block of a shard as an image shows it into `out`, which after a failed read holds any bytes.
pub fn read_image_on<D: Device>(
    shard: &mut Shard<D>,
    image: u32,
    block: u32,
    out: &mut [u8],
) -> Result<(), ImageFault>
    requires { length out.old ≡ BLOCK }
    ensures image { OnOk result (is_among image (image_sets shard.old.volume) ≡ true) }
    ensures in_range { OnOk result (block < blocks_of shard.old.volume) }
    ensures shown { OnOk result (IsAtPoint D.told shard.old image block out.new) }
    ensures same { OnOk result (IsUnfailed D.count shard.old.volume shard.new.volume) }
    ensures cause { IfErr result (HasOneImageCause D.count image block shard.old.volume shard.new.volume) }
    ensures read { IsRead D.Device shard.old shard.new }
    ensures goes_on { GoesOn shard.old shard.new }
{
    shard.volume.read_image_into(image, block, out)
}
