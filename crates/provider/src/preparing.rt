//! Whether a volume may join the set that is being prepared.

ghost use Rattle.std.specs.Prelude.{◌≡◌};
ghost use Rattle.provider.specs.Preparing.{refusal};

use vss_names::{MOST_IMAGES, MOST_VOLUMES_OF_A_SET, VssResult};

/// Why a volume with so many images does not join these volumes: the first cause that stands.
pub(crate) fn refusal(volume: u32, volumes: &[u32], images: usize) -> Option<VssResult>
    ensures { result ≡ refusal volume volumes.now images }
{
    if volumes.contains(&volume) {
        return Some(VssResult::ObjectAlreadyExists);
    }
    if volumes.len() >= MOST_VOLUMES_OF_A_SET {
        return Some(VssResult::MaximumNumberOfVolumesReached);
    }
    if images >= MOST_IMAGES {
        return Some(VssResult::MaximumNumberOfSnapshotsReached);
    }
    None
}
