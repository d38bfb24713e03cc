//! The devices that are given back.

ghost use Rattle.std.specs.Prelude.{◌≡◌, ◌≤◌, ◌+◌, ◌++◌, ◌∷◌, [], length, vec_capacity};
ghost use Rattle.provider.specs.Groups.{devices_of};

use cow_volume::CowGroup;
use volume_device::Device;

/// Adds devices to a list that has room for them, in order.
fn add_all<D: Device>(devices: Vec<D>, list: &mut Vec<D>)
    requires { length list.old.items + length devices.items ≤ vec_capacity list.old }
    ensures items { list.new.items ≡ list.old.items ++ devices.items }
    ensures room { vec_capacity list.new ≡ vec_capacity list.old }
{
    for device in devices {
        list.push_reserved(device);
    }
}

/// Adds the devices of a group to a list that has room for them: those of its volumes in order, and then its area's.
fn add_group<D: Device>(group: CowGroup<D>, list: &mut Vec<D>)
    requires { length list.old.items + length (devices_of (group ∷ [])) ≤ vec_capacity list.old }
    ensures items { list.new.items ≡ list.old.items ++ devices_of (group ∷ []) }
    ensures room { vec_capacity list.new ≡ vec_capacity list.old }
{
    let (devices, area) = group.into_parts();
    add_all(devices, list);
    list.push_reserved(area.into_device());
}

/// The devices of all groups, in a list that has room for them and is empty.
pub(crate) fn list_devices<D: Device>(groups: Vec<CowGroup<D>>, list: Vec<D>) -> Vec<D>
    requires empty { list.items ≡ [] }
    requires room { length (devices_of groups.items) ≤ vec_capacity list }
    ensures { result.items ≡ devices_of groups.items }
{
    let mut list = list;
    for group in groups {
        add_group(group, &mut list);
    }
    list
}
