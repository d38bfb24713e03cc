//! Lines that take images away, or bring a volume back to one.

ghost use Rattle.std.specs.Prelude.{ℕ, ◌≡◌, ◌<◌, Some, length, is_some};
ghost use Rattle.scenario.specs.declared.op.Op.TheVariants as op;
ghost use Rattle.vss_model.specs.declared.event.Event.TheVariants.{Line};
ghost use Rattle.vss_model.specs.Images.{is_backup};
ghost use Rattle.vss_world.specs.Stands.{IsOf, IsStanding};
ghost use Rattle.provider.specs.Words.{NeverFails, counted_as};
ghost use Rattle.vss_world.specs.Moves.{IsStepped, StopsAfter};

use crate::reply::{Reply, coded, told};
use crate::world::World;
use cow_volume::RevertFault;
use scenario::Scenario;
use volume_device::Device;
use vss_model::Told;
use vss_names::{Context, VssResult};

impl<D: Device> World<D> {
    /// Deletes the images of a set on all volumes, where they are kept.
    pub(crate) fn delete_set(&mut self, scenario: &Scenario, lane: u32, set: u32) -> Reply
        requires of { IsOf self.old scenario.now }
        requires standing { IsStanding D.told self.old scenario.now }
        ensures { IsStepped D.Device self.old self.new scenario.now (Line lane (op.DeleteSet set)) result }
    {
        let _facts = scenario.volumes();
        self.evicted.clear();
        if !self.sessions.is_complete(set) {
            return coded(VssResult::ObjectNotFound);
        }
        let count = self.provider.drop_set(set);
        if count == 0 {
            return coded(VssResult::ObjectNotFound);
        }
        let images = count as u32;
        told(Told::Deleted(images))
    }

    /// Deletes one image, where it is kept.
    pub(crate) fn delete_image(
        &mut self,
        scenario: &Scenario,
        lane: u32,
        set: u32,
        volume: u32,
    ) -> Reply
        requires of { IsOf self.old scenario.now }
        requires in_range { volume < length scenario.now.volumes }
        ensures { IsStepped D.Device self.old self.new scenario.now (Line lane (op.DeleteImage set volume)) result }
    {
        self.evicted.clear();
        if !self.sessions.is_complete(set) {
            return coded(VssResult::ObjectNotFound);
        }
        if !self.provider.drop_image(scenario, set, volume) {
            return coded(VssResult::ObjectNotFound);
        }
        told(Told::Deleted(1))
    }

    /// Brings a volume back to a kept image, unless its set has writers or the volume is in the set in progress. It stops after so many
    /// blocks where more are to be restored.
    pub(crate) fn revert(
        &mut self,
        scenario: &Scenario,
        lane: u32,
        set: u32,
        volume: u32,
        stop: Option<u32>,
    ) -> Reply
        requires of { IsOf self.old scenario.now }
        requires in_range { volume < length scenario.now.volumes }
        ensures stepped { IsStepped (counted_as D.Device (is_some stop)) self.old self.new scenario.now (Line lane (op.Revert set volume)) result }
        ensures stops { NeverFails D.count → (k : ℕ) → stop ≡ Some k → StopsAfter D.told self.old scenario.now set volume k result }
    {
        let kept = self.is_kept(scenario, set, volume);
        self.evicted.clear();
        if !kept {
            return coded(VssResult::ObjectNotFound);
        }
        let Some(facts) = self.sessions.facts(set) else {
            return coded(VssResult::ObjectNotFound);
        };
        if is_backup(facts.context) {
            return coded(VssResult::UnsupportedContext);
        }
        if self.provider.is_preparing(volume) {
            return coded(VssResult::SnapshotSetInProgress);
        }
        match self.provider.revert(scenario, set, volume, stop) {
            Ok(()) => return told(Told::Ok),
            Err(RevertFault::NoSuchImage) => return coded(VssResult::ObjectNotFound),
            Err(RevertFault::Fault { restored, cause: _ }) => {
                return told(Told::FaultAfter(restored));
            }
        }
    }
}

fn is_backup(context: Context) -> bool
    ensures { result ≡ is_backup context }
{
    match context {
        Context::Backup => true,
        Context::AppRollback | Context::NasRollback => false,
    }
}
