//! The digests at the end of a run: those that could be made side by side, and the others one after another.

ghost use Rattle.std.specs.Prelude.{◌≡◌, ◌<◌, true, is_some, is_err, length, IfOk, IfSome};
ghost use Rattle.write_history.specs.History.{point_in};
ghost use Rattle.vss_model.specs.State.{history_of, kept};
ghost use Rattle.vss_world.specs.Stands.{tells_of, IfStands};
ghost use Rattle.vss_world.specs.Changes.{IsDigestOf};
ghost use Rattle.vss_play.specs.Closing.{AreReady, Closes, StandsAfter, state_after};

use provider::{DigestsOf, ReadyDigests};
use scenario::Scenario;
use std::alloc::Global;
use std::thread::Threads;
use volume_device::Device;
use vss_names::Failed;
use vss_world::World;
use write_history::Trail;

/// The digests that can be made side by side, by as many threads as there are processors. None if memory is wanting for that.
pub(crate) fn ready_digests<R: Threads + Sync, D: Device + Sync>(
    rt: &R,
    alloc: Global,
    scenario: &Scenario,
    trail: &Trail,
    world: &World<D>,
    wanted: DigestsOf,
) -> ReadyDigests
    requires stands { StandsAfter D.told world.now scenario.now trail.now.moves }
    ensures { AreReady (tells_of D.told scenario.now world.now.devices) scenario.now trail.now.moves result.rows.items }
{
    match world.digests(rt, alloc, scenario, wanted) {
        Ok(ready) => ready,
        Err(_) => ReadyDigests::new(Vec::new(alloc)),
    }
}

/// The SHA-256 of a volume, or of its kept image of a set: the next one that is ready, where it is of this, or else made now.
pub(crate) fn digest_of<D: Device>(
    scenario: &Scenario,
    trail: &Trail,
    world: &mut World<D>,
    ready: &mut ReadyDigests,
    volume: u32,
    set: Option<u32>,
) -> Result<[u8; 32], Failed>
    requires in_range { volume < length scenario.now.volumes }
    requires is_kept { IfSome set (λ n. IfStands D.told world.old scenario.now (λ st. is_some (point_in n (kept st (history_of st volume))) ≡ true)) }
    requires stands { StandsAfter D.told world.old scenario.now trail.now.moves }
    requires ready { AreReady (tells_of D.told scenario.now world.old.devices) scenario.now trail.now.moves ready.old.rows.items }
    ensures digest { IfOk result (IsDigestOf (tells_of D.told scenario.now world.old.devices) scenario.now (state_after scenario.now trail.now.moves) volume set) }
    ensures closes { Closes D.Device scenario.now world.old world.new ready.old.rows ready.new.rows (is_err result) }
{
    if let Some(digest) = ready.take(volume, set) {
        return Ok(digest);
    }
    match world.digest(scenario, volume, set) {
        Ok(digest) => Ok(digest),
        Err(_fault) => Err(Failed),
    }
}
