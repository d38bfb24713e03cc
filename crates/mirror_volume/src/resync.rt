//! A mirror is brought into step with the primary again.

ghost use Rattle.std.specs.Prelude.{◌≡◌, ◌<◌, length};
ghost use Rattle.mirror_volume.specs.Resync.{IsCopyOr, IsStep};

use crate::mirror::Mirror;
use crate::sync_fault::SyncFault;
use crate::synced::Synced;
use block_data::BlockBuf;
use volume_device::Device;
use vss_names::Failed;

/// Copies a block of one device to another, in place where the first lends it, and else by `scratch`.
fn copy_block<D: Device>(
    from: &mut D,
    to: &mut D,
    scratch: &mut BlockBuf,
    block: u32,
) -> Result<(), Failed>
    requires from { block < D.size from.old }
    requires to { block < D.size to.old }
    ensures { IsCopyOr D.Device from.old from.new to.old to.new block result }
{
    let _blocks = to.blocks();
    if let Some(bytes) = from.lend(block) {
        return to.write(block, bytes);
    }
    from.read_into(block, scratch.bytes_mut())?;
    to.write(block, scratch.bytes())
}

/// Copies the lowest stale block of a mirror that holds no image.
pub(crate) fn step<D: Device>(
    primary: &mut D,
    mirror: &mut Mirror<D>,
    scratch: &mut BlockBuf,
) -> Result<Synced, SyncFault>
    requires size { D.size mirror.old.device ≡ D.size primary.old }
    requires stale { length mirror.old.stale ≡ D.size primary.old }
    ensures { IsStep D.Device primary.old primary.new mirror.old mirror.new result }
{
    if let Some(set) = mirror.holds {
        return Err(SyncFault::HoldsImage { set });
    }
    let Some(block) = mirror.stale.lowest() else {
        return Ok(Synced::InStep);
    };
    match copy_block(primary, &mut mirror.device, scratch, block) {
        Ok(()) => {
            mirror.stale.unmark(block);
            Ok(Synced::Copied { block })
        }
        Err(_) => Err(SyncFault::Volume),
    }
}
