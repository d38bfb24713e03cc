ghost use Rattle.std.specs.Prelude.{◌≡◌, ◌<◌, ◌^◌, ◌-◌, ◌+◌, false, IfOk, OnErr, length};
ghost use Rattle.coordinator.specs.Coordinator.{writer_count};
ghost use Rattle.scenario.specs.Plan.{Plan};
ghost use Rattle.scenario.specs.declared.op.Op.TheVariants as op;
ghost use Rattle.sessions.specs.Keeps.{KeepsCounts, IsStanding, Leaves, nothing_named_in};
ghost use Rattle.sessions.specs.Moves.{IsClosed, IsGoneIn, LetsGo, LetsGoAtRest};
ghost use Rattle.sessions.specs.Concluded.{released_by};

use crate::session_move::SessionMove;
use crate::sessions::{Sessions, nothing_named};
use requestor::{SessionCall, context_of};
use std::alloc::Global;
use vss_model::Told;
use vss_names::{Context, OutOfMemory, VssResult};

impl Sessions {
    /// A session begins, in which nothing is named.
    pub(crate) fn begin(&mut self, alloc: Global, lane: u32, context: u32, all: bool) -> SessionMove
        requires goes { LetsGo self.old lane (SessionCall.Begin context all) }
        ensures gone { (s : Plan) → IsGoneIn s self.old self.new lane (op.Begin context all) result }
        ensures leaves { Leaves self.old self.new }
    {
        if context_of(context, all).is_none() {
            return SessionMove::alone(Told::Result(VssResult::UnsupportedContext));
        }
        self.requestor
            .apply(lane, SessionCall::Begin { context, all });
        self.forget(alloc);
        SessionMove::alone(Told::Ok)
    }

    /// Nothing is named any more. The empty list takes no memory.
    fn forget(&mut self, alloc: Global)
        ensures { self.new ≡ nothing_named_in self.old }
    {
        self.selection = nothing_named(alloc, self.coordinator.writers());
    }

    /// The session's set is started.
    pub(crate) fn start(&mut self, lane: u32) -> Result<SessionMove, OutOfMemory>
        requires standing { IsStanding self.old }
        requires goes { LetsGo self.old lane SessionCall.Start }
        requires at_rest { LetsGoAtRest self.old lane SessionCall.Start }
        ensures gone { IfOk result (λ m. (s : Plan) → IsGoneIn s self.old self.new lane op.Start m) }
        ensures unchanged { OnErr result (self.new ≡ self.old) }
        ensures leaves { Leaves self.old self.new }
    {
        let number = self.requestor.sets_made() + 1;
        let Some(context) = self.requestor.context() else {
            // without a session the checks refuse `start`
            return Ok(SessionMove::alone(Told::Result(VssResult::BadState)));
        };
        self.sets.start(number, context)?;
        self.requestor.apply(lane, SessionCall::Start);
        Ok(SessionMove::alone(Told::Set(number)))
    }

    /// The result of the last agenda, or of the set's failure.
    pub(crate) fn await_last(&mut self, lane: u32) -> SessionMove
        requires goes { LetsGo self.old lane SessionCall.Await }
        ensures gone { (s : Plan) → IsGoneIn s self.old self.new lane op.Await result }
        ensures leaves { Leaves self.old self.new }
    {
        let _lane = lane;
        let why = self.requestor.last().unwrap_or(VssResult::BadState);
        SessionMove::alone(Told::Result(why))
    }

    /// The writers' rows are shown; they are lent by `rows`.
    pub(crate) fn status(&mut self, lane: u32) -> SessionMove
        requires goes { LetsGo self.old lane SessionCall.Status }
        ensures gone { (s : Plan) → IsGoneIn s self.old self.new lane op.Status result }
        ensures leaves { Leaves self.old self.new }
    {
        let _lane = lane;
        SessionMove::alone(Told::Status)
    }

    /// The class of a writer is disabled until the session ends.
    pub(crate) fn disable(&mut self, lane: u32, writer: u32) -> SessionMove
        requires known { writer < writer_count self.old.coordinator }
        requires goes { LetsGo self.old lane SessionCall.Disable }
        ensures gone { (s : Plan) → IsGoneIn s self.old self.new lane (op.Disable writer) result }
        ensures leaves { Leaves self.old self.new }
    {
        let _lane = lane;
        self.coordinator.disable(writer);
        SessionMove::alone(Told::Ok)
    }

    /// The set in progress fails.
    pub(crate) fn abort(&mut self, lane: u32) -> SessionMove
        requires goes { LetsGo self.old lane SessionCall.Abort }
        ensures gone { (s : Plan) → IsGoneIn s self.old self.new lane op.Abort result }
        ensures leaves { Leaves self.old self.new }
    {
        let _lane = lane;
        self.fail_so(VssResult::AsyncCancelled)
    }

    /// The session ends. A set in progress fails. In a context whose images go with the session, its set is released.
    pub(crate) fn end(&mut self, alloc: Global, lane: u32) -> SessionMove
        requires goes { LetsGo self.old lane SessionCall.End }
        ensures gone { (s : Plan) → IsGoneIn s self.old self.new lane op.End result }
        ensures leaves { Leaves self.old self.new }
    {
        let released = released_by(self.requestor.context(), self.requestor.set());
        let moved = self.fail_so(VssResult::AsyncCancelled);
        self.close(alloc, lane);
        SessionMove { released, ..moved }
    }

    /// The session is over: no writer is disabled any more, and nothing is named.
    fn close(&mut self, alloc: Global, lane: u32)
        requires { LetsGoAtRest self.old lane SessionCall.End }
        ensures closed { IsClosed self.old self.new }
        ensures counts { KeepsCounts self.old self.new }
    {
        self.requestor.apply(lane, SessionCall::End);
        self.coordinator.end_session();
        self.forget(alloc);
    }
}

/// The set whose images go as the session ends: its own, in the context whose images go with the session.
fn released_by(context: Option<Context>, set: Option<u32>) -> Option<u32>
    ensures { result ≡ released_by context set }
{
    match context {
        Some(Context::Backup) => set,
        _ => None,
    }
}
