//! Lines that write a block: whether they wait, and what they make.

ghost use Rattle.std.specs.Prelude.{◌≡◌, ◌<◌, true, length, Err};
ghost use Rattle.block_data.specs.BlockBytes.{payload_bytes};
ghost use Rattle.scenario.specs.Bounds.{IsBlock};
ghost use Rattle.scenario.specs.declared.op.Op.{Op};
ghost use Rattle.write_history.specs.declared.mark.Mark.TheVariants.{Fault};
ghost use Rattle.vss_model.specs.Acts.{may_write};
ghost use Rattle.vss_model.specs.declared.event.Event.TheVariants.{Line};
ghost use Rattle.provider.specs.Calls.{HasRoom, IsPut};
ghost use Rattle.provider.specs.Groups.{HasGroups};
ghost use Rattle.provider.specs.Words.{Volume, counted_as};
ghost use Rattle.vss_world.specs.Stands.{IsOf, IsStanding, IfStands};
ghost use Rattle.vss_world.specs.Moves.{HasMark, IsStepped};
ghost use Rattle.vss_world.specs.Changes.{IsWriteLine, told_if};

use crate::reply::{Reply, told};
use crate::world::World;
use block_data::Payload;
use cow_volume::Cause;
use provider::Provider;
use scenario::Scenario;
use volume_device::Device;
use vss_model::{Outcome, Told};
use vss_names::{SetOutcome, VssResult};

impl<D: Device> World<D> {
    /// Whether a write of this lane to a volume may go. It waits while the volume is held, and while the writer as which the lane acts
    /// stands frozen.
    pub(crate) fn may_write(&self, scenario: &Scenario, lane: u32, volume: u32) -> bool
        requires of { IsOf self.now scenario.now }
        requires standing { IsStanding D.told self.now scenario.now }
        requires lane { lane < length scenario.now.lanes }
        requires volume { volume < length scenario.now.volumes }
        ensures { IfStands D.told self.now scenario.now (λ st. result ≡ may_write scenario.now st lane volume) }
    {
        let _facts = scenario.volumes();
        if self.sessions.is_held(volume) {
            return false;
        }
        let Some(writer) = scenario.acts_as(lane) else {
            return true;
        };
        !self.sessions.is_frozen(writer)
    }

    /// Writes a block, where that does not wait. Where images have to go for it, and one of the set in progress is among them, the set
    /// fails. It is the step of each line that makes this write. Where `fails`, the block is not put, as if the volume's device had
    /// failed.
    pub(crate) fn write(
        &mut self,
        scenario: &Scenario,
        lane: u32,
        volume: u32,
        block: u32,
        payload: &Payload,
        fails: bool,
    ) -> Reply
        requires of { IsOf self.old scenario.now }
        requires standing { IsStanding D.told self.old scenario.now }
        requires lane { lane < length scenario.now.lanes }
        requires in_range { IsBlock scenario.now volume block }
        ensures stepped { (op : Op) → IsWriteLine op volume (record { block = block; bytes = payload_bytes payload.now }) → IsStepped (counted_as D.Device fails) self.old self.new scenario.now (Line lane op) result }
        ensures marked { fails ≡ true → HasMark Fault result }
    {
        if !self.may_write(scenario, lane, volume) {
            return Reply::Blocked;
        }
        let _facts = scenario.volumes();
        let up_to = self.evicted.make_room(
            &mut self.provider,
            &self.sessions,
            scenario,
            volume,
            block,
        );
        let put = put_or_fail(&mut self.provider, scenario, volume, block, payload, fails);
        let answer = told_of(put);
        let Some(set) = self.sessions.current() else {
            return told(answer);
        };
        if set != up_to {
            return told(answer);
        }
        let why = VssResult::InsufficientStorage;
        let _ = self.sessions.fail(why);
        let _ = self.provider.abort();
        Reply::Moved(Outcome {
            told: answer,
            lost: 0,
            lost_order: None,
            set,
            result: SetOutcome::Failed(why),
        })
    }
}

/// Puts a block for which there is room. Where `fails`, it does not, as if the volume's device had failed.
fn put_or_fail<D: Device>(
    provider: &mut Provider<D>,
    scenario: &Scenario,
    volume: u32,
    block: u32,
    payload: &Payload,
    fails: bool,
) -> Result<(), Cause>
    requires block { IsBlock scenario.now volume block }
    requires has { HasGroups scenario.now provider.old.groups }
    requires room { HasRoom scenario.now provider.old.groups volume block }
    ensures put { IsPut (counted_as D.Device fails) scenario.now provider.old.groups provider.new.groups volume (record { block = block; bytes = payload_bytes payload.now }) result }
    ensures set { provider.new ≡ record provider.old { groups = provider.new.groups } }
    ensures fails { fails ≡ true → result ≡ Err Volume }
{
    if fails {
        return Err(Cause::Volume);
    }
    provider.put(scenario, volume, block, payload)
}

/// What a write is answered.
fn told_of(put: Result<(), Cause>) -> Told
    ensures { result ≡ told_if put }
{
    match put {
        Ok(()) => Told::Ok,
        Err(_) => Told::Fault,
    }
}
