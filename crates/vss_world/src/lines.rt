//! A line of a lane: whether it waits, and what it makes.

ghost use Rattle.std.specs.Prelude.{◌≡◌, ◌<◌, true, length, IfOk, IsErr, OnErr};
ghost use Rattle.scenario.specs.Bounds.{IsOp};
ghost use Rattle.vss_model.specs.Acts.{line_enabled};
ghost use Rattle.vss_model.specs.declared.event.Event.TheVariants.{Line as LineEvent};
ghost use Rattle.sessions.specs.Moves.{takes_memory};
ghost use Rattle.vss_world.specs.Stands.{IsOf, IsStanding, IfStands};
ghost use Rattle.vss_world.specs.Moves.{IsStepped};

use crate::reply::Reply;
use crate::world::World;
use scenario::{Line, Op, Scenario};
use std::alloc::Global;
use volume_device::Device;
use vss_names::OutOfMemory;

impl<D: Device> World<D> {
    /// Whether a line does not wait.
    pub(crate) fn may_go(&self, scenario: &Scenario, lane: u32, op: Op) -> bool
        requires of { IsOf self.now scenario.now }
        requires standing { IsStanding D.told self.now scenario.now }
        requires lane { lane < length scenario.now.lanes }
        requires in_range { IsOp scenario.now op }
        ensures { IfStands D.told self.now scenario.now (λ st. result ≡ line_enabled scenario.now st lane op) }
    {
        match op.line() {
            Line::Writes { volume, .. } => self.may_write(scenario, lane, volume),
            Line::Calls(call) => self.sessions.may_call(lane, call),
            _ => true,
        }
    }

    /// Makes a line.
    pub(crate) fn line(
        &mut self,
        alloc: Global,
        scenario: &Scenario,
        lane: u32,
        op: Op,
    ) -> Result<Reply, OutOfMemory>
        requires of { IsOf self.old scenario.now }
        requires standing { IsStanding D.told self.old scenario.now }
        requires lane { lane < length scenario.now.lanes }
        requires in_range { IsOp scenario.now op }
        ensures memory { OnErr result (self.new ≡ self.old) }
        ensures takes { IsErr result → takes_memory op ≡ true }
        ensures stepped { IfOk result (IsStepped D.Device self.old self.new scenario.now (LineEvent lane op)) }
    {
        if let Line::Writes {
            volume,
            block,
            payload,
        } = op.line()
        {
            return Ok(self.write(scenario, lane, volume, block, &payload, false));
        }
        match op {
            Op::Read { volume, block } => Ok(self.read(scenario, lane, volume, block)),
            Op::ImageDigest { set, volume } => Ok(self.show_image(scenario, lane, set, volume)),
            Op::ImageBlock { set, volume, block } => {
                Ok(self.show_block(scenario, lane, set, volume, block))
            }
            Op::Query { volume } => Ok(self.query(scenario, lane, volume)),
            Op::Properties { set, volume } => Ok(self.properties(scenario, lane, set, volume)),
            Op::Revert { set, volume } => Ok(self.revert(scenario, lane, set, volume, None)),
            Op::DeleteSet { set } => Ok(self.delete_set(scenario, lane, set)),
            Op::DeleteImage { set, volume } => Ok(self.delete_image(scenario, lane, set, volume)),
            Op::Tick { ticks } => Ok(self.tick(scenario, lane, ticks)),
            Op::Add { volume } => Ok(self.add(scenario, lane, volume)),
            _ => self.call(alloc, scenario, lane, op),
        }
    }
}
