//! The digests of the volumes at the end of a run.

ghost use Rattle.std.specs.Prelude.{◌≡◌, length, map, is_err, OnOk};
ghost use Rattle.vss_world.specs.Stands.{tells_of};
ghost use Rattle.vss_play.specs.Played.{AreasHold};
ghost use Rattle.vss_play.specs.Closing.{AreReady, Closes, HasRisen, StandsAfter, IsEnding, AreDigests};
ghost use Rattle.vss_play.specs.Made.{AreLeft};

use crate::closing::sync_all;
use crate::end_digests::digest_of;
use provider::ReadyDigests;
use scenario::Scenario;
use volume_device::Device;
use vss_names::Failed;
use vss_world::World;
use write_history::Trail;

/// Digests each volume, in order, with the digests that are ready in that order.
fn digest_volumes<D: Device>(
    scenario: &Scenario,
    trail: &Trail,
    world: &mut World<D>,
    ready: &mut ReadyDigests,
    out: &mut [[u8; 32]],
) -> Result<(), Failed>
    requires many { length out.old ≡ length scenario.now.volumes }
    requires stands { StandsAfter D.told world.old scenario.now trail.now.moves }
    requires ready { AreReady (tells_of D.told scenario.now world.old.devices) scenario.now trail.now.moves ready.old.rows.items }
    ensures digests { OnOk result (AreDigests (tells_of D.told scenario.now world.old.devices) scenario.now trail.now.moves out.new) }
    ensures closes { Closes D.Device scenario.now world.old world.new ready.old.rows ready.new.rows (is_err result) }
{
    for volume in 0..scenario.volumes() {
        match digest_of(scenario, trail, world, ready, volume, None) {
            Ok(digest) => out[volume as usize] = digest,
            Err(Failed) => return Err(Failed),
        }
    }
    Ok(())
}

/// Writes each group's area to its device, brings all that was written to any device to where it lasts, and then digests each volume, in
/// order, with the digests that are ready in that order.
pub fn digest_all<D: Device>(
    scenario: &Scenario,
    trail: &Trail,
    world: &mut World<D>,
    ready: &mut ReadyDigests,
    out: &mut [[u8; 32]],
) -> Result<(), Failed>
    requires many { length out.old ≡ length scenario.now.volumes }
    requires stands { StandsAfter D.told world.old scenario.now trail.now.moves }
    requires ready { AreReady (tells_of D.told scenario.now world.old.devices) scenario.now trail.now.moves ready.old.rows.items }
    ensures digests { OnOk result (AreDigests (tells_of D.told scenario.now world.old.devices) scenario.now trail.now.moves out.new) }
    ensures areas { OnOk result (AreasHold D.told scenario.now trail.now.moves world.new.devices) }
    ensures left { OnOk result (AreLeft D.Device scenario.now world.new.devices) }
    ensures ending { IsEnding D.Device world.old world.new scenario.now }
    ensures counts { HasRisen (is_err result) (map D.count world.old.devices) (map D.count world.new.devices) }
{
    sync_all(scenario, trail, world)?;
    digest_volumes(scenario, trail, world, ready, out)?;
    let _facts = world.devices(scenario);
    Ok(())
}
