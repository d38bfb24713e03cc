ghost use Rattle.std.specs.Prelude.{◌≡◌, ◌<◌, ◌≤◌, ◌+◌, ◌^◌, ℕ, false, true, option_map, unwrap_or, IfOk, OnErr};
ghost use Rattle.component_doc.specs.Over.{Held};
ghost use Rattle.coordinator.specs.Coordinator.{MayPost, IsOnTime, runs, writer_count};
ghost use Rattle.scenario.specs.Plan.{Plan};
ghost use Rattle.scenario.specs.declared.op.Op.TheVariants.{Tick};
ghost use Rattle.set_agenda.specs.Advance.{are_distinct};
ghost use Rattle.tick_limits.specs.Time.{answer_limit};
ghost use Rattle.vss_model.specs.declared.event.Event.TheVariants.{Line, Idle};
ghost use Rattle.sessions.specs.Keeps.{IsAt, IsStanding, Leaves, LeavesWithin, later_by};
ghost use Rattle.sessions.specs.Moves.{HasBegun, HasGoneOn, IsCall, IsMove};

use crate::called::Called;
use crate::session_move::SessionMove;
use crate::sessions::Sessions;
use component_doc::Selection;
use set_agenda::Kind;
use std::alloc::Global;
use tick_limits::Clock;
use vss_model::Told;
use vss_names::{OutOfMemory, VssResult};

impl Sessions {
    /// An agenda begins over these volumes, and over this selection or the one that the session keeps.
    pub(crate) fn begin_agenda(
        &mut self,
        alloc: Global,
        kind: Kind,
        volumes: &[u32],
        over: Option<&Selection>,
    ) -> Result<SessionMove, OutOfMemory>
        requires idle { runs self.old.coordinator ≡ false }
        requires room { MayPost self.old.coordinator }
        requires distinct { are_distinct volumes.now ≡ true }
        requires over { (unwrap_or (option_map (λ s. s.now) over) self.old.selection).writers ≡ writer_count self.old.coordinator }
        ensures begun { IfOk result (HasBegun kind (unwrap_or (option_map (λ s. s.now) over.entry) self.old.selection) volumes.now self.old self.new) }
        ensures unchanged { OnErr result (self.new ≡ self.old) }
        ensures leaves { Leaves self.old self.new }
    {
        let now = self.clock.now();
        let selection = selected(over, &self.selection);
        let effects = self
            .coordinator
            .begin_agenda(alloc, kind, 0, volumes, selection, now)?;
        Ok(self.conclude(Told::Result(VssResult::AsyncPending), effects))
    }

    /// The clock goes on by so many ticks: the line `tick`. A limit that is spent is treated in the same move.
    pub fn time(&mut self, ticks: u32) -> SessionMove
        requires standing { IsStanding self.old }
        ensures moves { (s : Plan) (lane : ℕ) → IsMove (IsAt self.old s) s self.new (Line lane (Tick ticks)) result }
        ensures leaves { Leaves (later_by ticks self.old) self.new }
    {
        self.go_on(Told::Ok, ticks as u64)
    }

    /// Time goes by until a limit is spent. The event waits if no writer is asked.
    pub fn idle(&mut self) -> Called
        requires standing { IsStanding self.old }
        ensures called { (s : Plan) → IsCall (IsAt self.old s) s self.old self.new Idle result }
        ensures leaves { LeavesWithin (answer_limit + 1) self.old self.new }
    {
        if !self.is_asking() {
            return Called::Waits;
        }
        let now = self.clock.now();
        match self.coordinator.until_limit(now) {
            None => Called::Waits,
            Some(ticks) => Called::Moves(self.go_on(Told::Ticks(ticks), ticks)),
        }
    }

    /// The clock goes on by so many ticks, and the reply is this.
    fn go_on(&mut self, told: Told, ticks: u64) -> SessionMove
        requires room { MayPost self.old.coordinator }
        requires early { self.old.clock < 2 ^ 62 }
        requires few { ticks < 2 ^ 32 }
        requires on_time { IsOnTime self.old.clock self.old.coordinator }
        ensures gone { HasGoneOn told ticks self.old self.new result }
        ensures leaves { Leaves (later_by ticks self.old) self.new }
    {
        go_on_by(&mut self.clock, ticks);
        let now = self.clock.now();
        let effects = self.coordinator.time(now);
        self.conclude(told, effects)
    }
}

/// This selection, or else the session's own.
fn selected<'a>(over: Option<&'a Selection>, own: &'a Selection) -> &'a Selection
    ensures { result.now ≡ unwrap_or (option_map (λ s. s.now) over.entry) own.now }
{
    match over {
        Some(selection) => selection,
        None => own,
    }
}

/// The clock goes on, far from its last tick.
fn go_on_by(clock: &mut Clock, ticks: u64)
    requires early { clock.old < 2 ^ 62 }
    requires few { ticks < 2 ^ 32 }
    ensures { clock.new ≡ clock.old + ticks }
{
    match clock.advance(ticks) {
        Ok(()) => {}
        Err(_) => unreachable!(),
    }
}
