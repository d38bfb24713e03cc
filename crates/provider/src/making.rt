//! What a provider is made of.

ghost use Rattle.std.specs.Prelude.{◌≡◌, ◌<◌, length};
ghost use Rattle.provider.specs.Groups.{AreFit, AreWhole, devices_of};

use cow_volume::CowGroup;
use volume_device::Device;

/// How many devices the groups have: one for each volume, and one for each area.
pub(crate) fn device_count<D: Device>(groups: &[CowGroup<D>]) -> usize
    requires { length groups.now < 4294967296 }
    ensures count { result ≡ length (devices_of groups.now) }
    ensures whole { AreWhole groups.now }
    ensures fit { AreFit D.size groups.now }
{
    let mut count = 0;
    for group in groups {
        count += group.volumes() as usize + 1;
    }
    count
}
