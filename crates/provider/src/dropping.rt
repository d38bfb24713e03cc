//! Images that go.

ghost use Rattle.std.specs.Prelude.{◌<◌, length};
ghost use Rattle.provider.specs.Calls.{AreWithout};
ghost use Rattle.provider.specs.GroupCalls.{IsGroupDrop, IsWithout};

use cow_volume::CowGroup;
use volume_device::Device;

/// The image of a set goes from a volume of a group. Whether it stood.
pub(crate) fn drop_on<D: Device>(group: &mut CowGroup<D>, volume: u32, set: u32) -> bool
    requires { volume < length group.old.area.volumes }
    ensures { IsGroupDrop D.Device group.old group.new volume set result }
{
    match group.drop_image(volume, set) {
        Ok(()) => true,
        Err(_) => false,
    }
}

/// The images of a set go from all volumes of a group. How many stood.
fn drop_within<D: Device>(group: &mut CowGroup<D>, set: u32) -> u32
    ensures { IsWithout D.Device group.old group.new set result }
{
    let mut stood = 0;
    for volume in 0..group.volumes() {
        if drop_on(group, volume, set) {
            stood += 1;
        }
    }
    stood
}

/// The images of a set go from all volumes. How many stood.
pub(crate) fn drop_set_in<D: Device>(groups: &mut Vec<CowGroup<D>>, set: u32) -> usize
    requires { length groups.old.items < 4294967296 }
    ensures { AreWithout D.Device groups.old.items groups.new.items set result }
{
    let mut stood = 0;
    for group in 0..groups.len() {
        stood += drop_within(&mut groups[group], set) as usize;
    }
    stood
}
