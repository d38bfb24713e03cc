ghost use Rattle.std.specs.Prelude.{◌≡◌};
ghost use Rattle.requestor.specs.Check.{check_owner};
ghost use Rattle.requestor.specs.Requestor.{ended};
ghost use Rattle.requestor.specs.Session.{agenda_ended, opened, set_failed, started};

use crate::contexts::has_writers;
use crate::mode::Mode;
use crate::session_call::SessionCall;
use crate::stage::Stage;
use crate::verdict::Verdict;
use vss_names::{Context, SetOutcome, VssResult};

/// A requestor's session. It makes at most one set.
#[derive(Clone, Copy, Debug, PartialEq, Eq)]
pub struct Session {
    /// The lane that opened it.
    pub owner: u32,
    pub context: Context,
    pub mode: Mode,
    pub stage: Stage,
    /// The number of the session's set, once it is started.
    pub set: Option<u32>,
    /// What the last agenda, or the failure of the set, came to.
    pub last: Option<VssResult>,
}

impl Session {
    /// A session that this lane opens in this context; `all`, without component selection.
    pub fn opened(lane: u32, context: Context, all: bool) -> Session
        ensures { result ≡ opened lane context all }
    {
        Session {
            owner: lane,
            context,
            mode: if all { Mode::All } else { Mode::Components },
            stage: Stage::Opened,
            set: None,
            last: None,
        }
    }

    /// The session once its set is started, which gets this number.
    pub fn started(self, set: u32) -> Session
        ensures { result ≡ started set self }
    {
        Session {
            stage: Stage::Started,
            set: Some(set),
            ..self
        }
    }

    /// The session once its running agenda has ended with this outcome of its set, or the set has failed.
    pub fn ended(self, outcome: SetOutcome) -> Session
        ensures { result ≡ ended outcome self }
    {
        match outcome {
            SetOutcome::Running | SetOutcome::Complete => self.agenda_ended(),
            SetOutcome::Failed(why) => self.set_failed(why),
        }
    }

    /// The session once its running agenda has ended without failing the set.
    pub fn agenda_ended(self) -> Session
        ensures { result ≡ agenda_ended self }
    {
        Session {
            stage: self.stage.after_agenda(self.context),
            last: Some(VssResult::AsyncFinished),
            ..self
        }
    }

    /// The session once its set has failed, for this reason.
    pub fn set_failed(self, why: VssResult) -> Session
        ensures { result ≡ set_failed why self }
    {
        Session {
            stage: Stage::Failed,
            last: Some(why),
            ..self
        }
    }

    /// What the checks say of a call by the session's owner, other than `begin`.
    pub fn check(&self, call: SessionCall, running: bool) -> Verdict
        ensures { result ≡ check_owner self.now running call }
    {
        if call.is_start() && self.stage.makes_set() {
            return Verdict::Refused(VssResult::SnapshotSetInProgress);
        }
        if running && !call.goes_beside_agenda() {
            return Verdict::Refused(VssResult::BadState);
        }
        if !call.is_allowed(self.stage, has_writers(self.context)) {
            return Verdict::Refused(VssResult::BadState);
        }
        if call.is_await() && running {
            Verdict::Blocked
        } else {
            Verdict::Go
        }
    }
}
