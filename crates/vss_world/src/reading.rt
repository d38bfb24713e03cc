//! What is read of a volume or of an image: in place where the device lends its blocks, and else by one buffer.

ghost use Rattle.std.specs.Prelude.{◌<◌, length};
ghost use Rattle.scenario.specs.Bounds.{IsBlock};
ghost use Rattle.provider.specs.Groups.{HasGroups};
ghost use Rattle.vss_world.specs.Changes.{IsBlockSeen, IsDigestSeen, IsSeenIf};

use crate::fingerprint::Fingerprint;
use block_data::BlockBuf;
use cow_volume::ImageFault;
use provider::Provider;
use scenario::Scenario;
use volume_device::Device;
use vss_model::Told;

/// What is told of a block of a volume, as it is or as the image of a set shows it; none where no such image stands.
pub(crate) fn read_block<D: Device>(
    provider: &mut Provider<D>,
    scratch: &mut BlockBuf,
    scenario: &Scenario,
    volume: u32,
    set: Option<u32>,
    block: u32,
) -> Option<Told>
    requires block { IsBlock scenario.now volume block }
    requires has { HasGroups scenario.now provider.old.groups }
    ensures { IsSeenIf D.told scenario.now provider.old provider.new volume set (IsBlockSeen D.Device scenario.now provider.old provider.new volume set block) result }
{
    match provider.lend(scenario, volume, set, block) {
        Err(_fault) => return None,
        Ok(Some(bytes)) => return Some(Fingerprint::of(bytes).told()),
        Ok(None) => {}
    }
    match provider.read_into(scenario, volume, set, block, scratch.bytes_mut()) {
        Ok(()) => Some(Fingerprint::of(scratch.bytes()).told()),
        Err(ImageFault::NoSuchImage) => None,
        Err(_fault) => Some(Told::Fault),
    }
}

/// What is told of all blocks of a volume, as it is or as the image of a set shows it; none where no such image stands.
pub(crate) fn read_digest<D: Device>(
    provider: &mut Provider<D>,
    scenario: &Scenario,
    volume: u32,
    set: Option<u32>,
) -> Option<Told>
    requires volume { volume < length scenario.now.volumes }
    requires has { HasGroups scenario.now provider.old.groups }
    ensures { IsSeenIf D.told scenario.now provider.old provider.new volume set
        (IsDigestSeen D.Device scenario.now provider.old provider.new volume set) result }
{
    match provider.digest(scenario, volume, set) {
        Ok(digest) => Some(Told::Digest(digest)),
        Err(ImageFault::NoSuchImage) => None,
        Err(_fault) => Some(Told::Fault),
    }
}
