ghost use Rattle.std.specs.Prelude.{◌≡◌, true, false, is_some, IfOk, IfSome, IsErr, OnErr};
ghost use Rattle.scenario.specs.Bounds.{IsOp, IsPlan};
ghost use Rattle.scenario.specs.Calls.{call_of};
ghost use Rattle.set_agenda.specs.Advance.{are_distinct};
ghost use Rattle.vss_model.specs.declared.event.Event.TheVariants.{Line};
ghost use Rattle.sessions.specs.Keeps.{IsStandingIn, Leaves};
ghost use Rattle.sessions.specs.Moves.{IsAtOver, IsCall, IsGoneAs, LetsGo, LetsGoAtRest, is_add, takes_memory};

use crate::called::Called;
use crate::session_move::SessionMove;
use crate::sessions::Sessions;
use requestor::Verdict;
use scenario::{Op, Scenario};
use std::alloc::Global;
use vss_model::Told;
use vss_names::OutOfMemory;

impl Sessions {
    /// A session line of a lane, but for `add`, which the provider answers once the checks let it go. `volumes` are those
    /// of the set in progress. Only `component`, `document`, `start`, `gather`, `prepare`, `snapshot` and `complete` may
    /// run out of memory, and then nothing has changed.
    pub fn call(
        &mut self,
        alloc: Global,
        scenario: &Scenario,
        lane: u32,
        op: Op,
        volumes: &[u32],
    ) -> Result<Called, OutOfMemory>
        requires standing { IsStandingIn scenario.now self.old }
        requires is_call { is_some (call_of op) ≡ true }
        requires no_add { is_add op ≡ false }
        requires is_op { IsOp scenario.now op }
        requires distinct { are_distinct volumes.now ≡ true }
        ensures called { IfOk result (IsCall (IsAtOver volumes.now self.old scenario.now) scenario.now self.old self.new (Line lane op)) }
        ensures unchanged { OnErr result (self.new ≡ self.old) }
        ensures memory { IsErr result → takes_memory op ≡ true }
        ensures leaves { Leaves self.old self.new }
    {
        let _facts = scenario.volumes();
        let Some(call) = op.session_call() else {
            unreachable!();
        };
        match self.check(lane, call) {
            Verdict::Blocked => Ok(Called::Waits),
            Verdict::Refused(why) => Ok(Called::Moves(SessionMove::alone(Told::Result(why)))),
            Verdict::Go => {
                let moved = self.go(alloc, scenario, lane, op, volumes)?;
                Ok(Called::Moves(moved))
            }
        }
    }

    /// A session line that the checks let go.
    fn go(
        &mut self,
        alloc: Global,
        scenario: &Scenario,
        lane: u32,
        op: Op,
        volumes: &[u32],
    ) -> Result<SessionMove, OutOfMemory>
        requires standing { IsStandingIn scenario.now self.old }
        requires is_call { is_some (call_of op) ≡ true }
        requires no_add { is_add op ≡ false }
        requires is_op { IsOp scenario.now op }
        requires plan { IsPlan scenario.now }
        requires distinct { are_distinct volumes.now ≡ true }
        requires goes { IfSome (call_of op) (LetsGo self.old lane) }
        requires at_rest { IfSome (call_of op) (LetsGoAtRest self.old lane) }
        ensures gone { IfOk result (IsGoneAs scenario.now volumes.now self.old self.new lane op) }
        ensures unchanged { OnErr result (self.new ≡ self.old) }
        ensures memory { IsErr result → takes_memory op ≡ true }
        ensures leaves { Leaves self.old self.new }
    {
        match op {
            Op::Begin { context, all } => Ok(self.begin(alloc, lane, context, all)),
            Op::Disable { writer } => Ok(self.disable(lane, writer)),
            Op::Gather => self.gather(alloc, lane),
            Op::Component { writer, full } => {
                self.component(alloc, scenario, lane, writer, full)
            }
            Op::Document => self.document(alloc, scenario, lane),
            Op::Start => self.start(lane),
            Op::Prepare => self.prepare(alloc, scenario, lane, volumes),
            Op::Snapshot => self.snapshot(alloc, lane, volumes),
            Op::Await => Ok(self.await_last(lane)),
            Op::Status => Ok(self.status(lane)),
            Op::Complete => self.complete(alloc, lane),
            Op::Abort => Ok(self.abort(lane)),
            Op::End => Ok(self.end(alloc, lane)),
            _ => unreachable!(),
        }
    }
}
