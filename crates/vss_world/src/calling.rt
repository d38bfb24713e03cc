//! Session lines.

ghost use Rattle.std.specs.Prelude.{◌≡◌, ◌<◌, ℕ, true, false, Some, length, is_some, IfOk, IsErr, OnErr};
ghost use Rattle.scenario.specs.Bounds.{IsOp};
ghost use Rattle.scenario.specs.Calls.{call_of};
ghost use Rattle.scenario.specs.declared.op.Op.TheVariants.{Add};
ghost use Rattle.vss_model.specs.declared.event.Event.TheVariants.{Line};
ghost use Rattle.sessions.specs.Moves.{is_add, takes_memory};
ghost use Rattle.vss_world.specs.Stands.{IsOf, IsStanding};
ghost use Rattle.vss_world.specs.Moves.{IsStepped};
ghost use Rattle.vss_world.specs.Changes.{begins_snapshot, IsEndPrepared};

use crate::reply::{Reply, coded, told};
use crate::settling::settle;
use crate::world::World;
use provider::Provider;
use requestor::{SessionCall, Verdict};
use scenario::{Op, Scenario};
use sessions::Called;
use std::alloc::Global;
use volume_device::Device;
use vss_model::Told;
use vss_names::{OutOfMemory, VssResult};

impl<D: Device> World<D> {
    /// Makes a session line that adds no volume. Where the set's snapshot begins, the provider is told that the set has all its volumes.
    pub(crate) fn call(
        &mut self,
        alloc: Global,
        scenario: &Scenario,
        lane: u32,
        op: Op,
    ) -> Result<Reply, OutOfMemory>
        requires of { IsOf self.old scenario.now }
        requires standing { IsStanding D.told self.old scenario.now }
        requires in_range { IsOp scenario.now op }
        requires is_call { is_some (call_of op) ≡ true }
        requires no_add { is_add op ≡ false }
        ensures memory { OnErr result (self.new ≡ self.old) }
        ensures takes { IsErr result → takes_memory op ≡ true }
        ensures stepped { IfOk result (IsStepped D.Device self.old self.new scenario.now (Line lane op)) }
    {
        let set = self.sessions.current();
        match self
            .sessions
            .call(alloc, scenario, lane, op, self.provider.volumes())?
        {
            Called::Waits => Ok(Reply::Blocked),
            Called::Moves(item) => {
                settle(&mut self.provider, item);
                end_prepare(
                    &mut self.provider,
                    begins_snapshot(op, item.outcome.told),
                    set,
                );
                self.evicted.clear();
                Ok(Reply::Moved(item.outcome))
            }
        }
    }

    /// A volume joins the set in progress, where the provider takes it.
    pub(crate) fn add(&mut self, scenario: &Scenario, lane: u32, volume: u32) -> Reply
        requires of { IsOf self.old scenario.now }
        requires standing { IsStanding D.told self.old scenario.now }
        requires in_range { volume < length scenario.now.volumes }
        ensures { IsStepped D.Device self.old self.new scenario.now (Line lane (Add volume)) result }
    {
        match self.sessions.check(lane, SessionCall::Add) {
            Verdict::Blocked => return Reply::Blocked,
            Verdict::Refused(why) => {
                self.evicted.clear();
                return coded(why);
            }
            Verdict::Go => {}
        }
        let joined = self.provider.begin_prepare(scenario, volume);
        self.evicted.clear();
        match joined {
            Ok(()) => return told(Told::Ok),
            Err(why) => return coded(why),
        }
    }
}

/// Whether the answer to a line says that the set's snapshot begins.
fn begins_snapshot(op: Op, told: Told) -> bool
    ensures { result ≡ begins_snapshot op told }
{
    match (op, told) {
        (Op::Snapshot, Told::Result(VssResult::AsyncPending)) => true,
        _ => false,
    }
}

/// Where the set's snapshot begins, the set has all its volumes.
fn end_prepare<D: Device>(provider: &mut Provider<D>, begins: bool, set: Option<u32>)
    requires { begins ≡ true → (n : ℕ) → set ≡ Some n → 0 < n }
    ensures { IsEndPrepared begins set provider.old provider.new }
{
    if !begins {
        return;
    }
    if let Some(set) = set {
        provider.end_prepare(set);
    }
}
