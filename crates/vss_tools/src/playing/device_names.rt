//! The names of the devices of a scenario.

ghost use Rattle.std.specs.Prelude.{◌<◌, length};

use scenario::Scenario;

/// The name of a volume.
fn volume_name(scenario: &Scenario, volume: u32) -> &[u8]
    requires { volume < length scenario.now.volumes }
{
    let _count = scenario.volumes();
    scenario.token(scenario.volume(volume).name)
}

/// The name of a group of volumes: that of its declared area, or of its one volume.
fn group_name(scenario: &Scenario, group: u32) -> &[u8]
    requires { group < length scenario.now.groups }
{
    let _count = scenario.volumes();
    scenario.token(scenario.group_name(group))
}

/// Whether some volume has this name.
fn is_volume(scenario: &Scenario, name: &[u8]) -> bool {
    for volume in 0..scenario.volumes() {
        if volume_name(scenario, volume) == name {
            return true;
        }
    }
    false
}

/// Whether the area of a group is a volume's own: then the group has its name from the volume, at the same place of the text.
fn is_own(scenario: &Scenario, group: u32) -> bool
    requires { group < length scenario.now.groups }
{
    let start = scenario.group_name(group).start;
    for volume in 0..scenario.volumes() {
        if scenario.volume(volume).name.start == start {
            return true;
        }
    }
    false
}

/// Whether some area has this name, a volume's own or a declared one.
fn is_area(scenario: &Scenario, name: &[u8], owned: bool) -> bool {
    for group in 0..scenario.groups() {
        if group_name(scenario, group) == name && is_own(scenario, group) == owned {
            return true;
        }
    }
    false
}

/// Whether a device of the scenario has this name.
pub fn is_device(scenario: &Scenario, device: &str) -> bool {
    let Some((name, kind)) = device.rsplit_once('.') else {
        return false;
    };
    let name = name.as_bytes();
    match kind.as_bytes() {
        b"vol" => is_volume(scenario, name),
        b"area" => is_area(scenario, name, true),
        b"shared" => is_area(scenario, name, false),
        _ => false,
    }
}
