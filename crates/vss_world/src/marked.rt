//! Events with a mark that is told: what they leave where a device fails so, without a failing call.

ghost use Rattle.std.specs.Prelude.{[], ◌≡◌, ◌<◌, true, length, IfOk, IsErr, OnErr};
ghost use Rattle.scenario.specs.Bounds.{IsOp};
ghost use Rattle.write_history.specs.declared.mark.Mark.TheVariants as mark;
ghost use Rattle.vss_model.specs.declared.event.Event.TheVariants.{Line as LineEvent, Provider as ProviderEvent};
ghost use Rattle.vss_model.specs.declared.told.Told.TheVariants as told;
ghost use Rattle.vss_world.specs.declared.reply.Reply.TheVariants.{Moved};
ghost use Rattle.vss_world.specs.Stands.{IsOf, IsStanding};
ghost use Rattle.vss_world.specs.Moves.{AreListed, IsEvent, IsMarked, IsToldStep, simple_outcome, takes_memory};

use crate::reply::{Reply, told};
use crate::settling::settle;
use crate::world::World;
use scenario::{Line, Op, Scenario};
use set_agenda::Group;
use std::alloc::Global;
use volume_device::Device;
use vss_model::{Event, Told};
use vss_names::OutOfMemory;
use write_history::Mark;

impl<D: Device> World<D> {
    /// Makes an event with this mark, if it is enabled: what it leaves where a call of a device fails as the mark says, though no such
    /// call is made. If the mark may not come with the event, it is a `step`.
    pub fn step_marked(
        &mut self,
        alloc: Global,
        scenario: &Scenario,
        event: Event,
        mark: Mark,
    ) -> Result<Reply, OutOfMemory>
        requires of { IsOf self.old scenario.now }
        requires standing { IsStanding D.told self.old scenario.now }
        requires in_range { IsEvent scenario.now event }
        ensures memory { OnErr result (self.new ≡ self.old) }
        ensures takes { IsErr result → takes_memory event ≡ true }
        ensures stepped { IfOk result
            (IsToldStep D.Device self.old self.new scenario.now event mark) }
        ensures listed { IfOk result (λ reply. AreListed reply self.new.listed) }
    {
        let reply = self.make_marked(alloc, scenario, event, mark)?;
        self.end_listing(reply);
        Ok(reply)
    }

    /// Makes an event with a mark. What an earlier step listed stays listed.
    fn make_marked(
        &mut self,
        alloc: Global,
        scenario: &Scenario,
        event: Event,
        mark: Mark,
    ) -> Result<Reply, OutOfMemory>
        requires of { IsOf self.old scenario.now }
        requires standing { IsStanding D.told self.old scenario.now }
        requires in_range { IsEvent scenario.now event }
        ensures { IsMarked D.Device self.old self.new scenario.now event mark result }
    {
        match mark {
            Mark::Clean => self.make_clean(alloc, scenario, event),
            Mark::Fault => self.make_failing(alloc, scenario, event),
            Mark::FaultAfter(restored) => self.make_stopping(alloc, scenario, event, restored),
        }
    }

    /// Makes an event without a mark.
    fn make_clean(
        &mut self,
        alloc: Global,
        scenario: &Scenario,
        event: Event,
    ) -> Result<Reply, OutOfMemory>
        requires of { IsOf self.old scenario.now }
        requires standing { IsStanding D.told self.old scenario.now }
        requires in_range { IsEvent scenario.now event }
        ensures { IsMarked D.Device self.old self.new scenario.now event mark.Clean result }
    {
        self.make(alloc, scenario, event)
    }

    /// Makes an event in which a device fails, where one may.
    fn make_failing(
        &mut self,
        alloc: Global,
        scenario: &Scenario,
        event: Event,
    ) -> Result<Reply, OutOfMemory>
        requires of { IsOf self.old scenario.now }
        requires standing { IsStanding D.told self.old scenario.now }
        requires in_range { IsEvent scenario.now event }
        ensures { IsMarked D.Device self.old self.new scenario.now event mark.Fault result }
    {
        match event {
            Event::Line { lane, op } => self.fail_line(alloc, scenario, lane, op),
            Event::Provider => Ok(self.fail_step(scenario)),
            Event::Answer { .. } | Event::Idle => self.make_clean(alloc, scenario, event),
        }
    }

    /// Makes an event that stops after so many restored blocks, where a revert may.
    fn make_stopping(
        &mut self,
        alloc: Global,
        scenario: &Scenario,
        event: Event,
        restored: u32,
    ) -> Result<Reply, OutOfMemory>
        requires of { IsOf self.old scenario.now }
        requires standing { IsStanding D.told self.old scenario.now }
        requires in_range { IsEvent scenario.now event }
        ensures { IsMarked D.Device self.old self.new scenario.now event
            (mark.FaultAfter restored) result }
    {
        match event {
            Event::Line {
                lane,
                op: Op::Revert { set, volume },
            } => Ok(self.revert(scenario, lane, set, volume, Some(restored))),
            _ => self.make_clean(alloc, scenario, event),
        }
    }

    /// Makes a line in which a device fails, where one may.
    fn fail_line(
        &mut self,
        alloc: Global,
        scenario: &Scenario,
        lane: u32,
        op: Op,
    ) -> Result<Reply, OutOfMemory>
        requires of { IsOf self.old scenario.now }
        requires standing { IsStanding D.told self.old scenario.now }
        requires lane { lane < length scenario.now.lanes }
        requires in_range { IsOp scenario.now op }
        ensures { IsMarked D.Device self.old self.new scenario.now
            (LineEvent lane op) mark.Fault result }
    {
        let event = Event::Line { lane, op };
        match op.line() {
            Line::Writes {
                volume,
                block,
                payload,
            } => return Ok(self.write(scenario, lane, volume, block, &payload, true)),
            Line::Reads { .. } => return Ok(self.fail_look()),
            Line::ShowsImage { set, volume } => {
                if !self.is_kept(scenario, set, volume) {
                    return self.make_clean(alloc, scenario, event);
                }
                return Ok(self.fail_look());
            }
            Line::ShowsBlock { set, volume, .. } => {
                if !self.is_kept(scenario, set, volume) {
                    return self.make_clean(alloc, scenario, event);
                }
                return Ok(self.fail_look());
            }
            _ => return self.make_clean(alloc, scenario, event),
        }
    }

    /// Answers a line that looks at a volume or an image.
    fn fail_look(&mut self) -> Reply
        ensures after { self.new ≡ record self.old { evicted = [] } }
        ensures told { result ≡ Moved (simple_outcome told.Fault) }
    {
        self.evicted.clear();
        told(Told::Fault)
    }

    /// Makes the provider's next step; one of the Flush group fails, and its set with it.
    fn fail_step(&mut self, scenario: &Scenario) -> Reply
        requires of { IsOf self.old scenario.now }
        requires standing { IsStanding D.told self.old scenario.now }
        ensures { IsToldStep D.Device self.old self.new scenario.now
            ProviderEvent mark.Fault result }
    {
        let Some(next) = self.sessions.next_step() else {
            return Reply::Blocked;
        };
        match next.0 {
            Group::Flush => {}
            _ => return self.make_step(scenario),
        }
        let item = self.sessions.step(next.0, next.1, false);
        settle(&mut self.provider, item);
        self.evicted.clear();
        Reply::Moved(item.outcome)
    }
}
