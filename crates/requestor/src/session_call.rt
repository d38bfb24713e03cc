ghost use Rattle.std.specs.Prelude.{◌≡◌};
ghost use Rattle.requestor.specs.Check.{allows, goes_beside_agenda, is_await, is_start};
ghost use Rattle.requestor.specs.Requestor.{has_context};

use crate::contexts::context_of;
use crate::stage::Stage;

/// A requestor's call of a session, as far as the checks look at it.
#[derive(Clone, Copy, Debug, PartialEq, Eq)]
pub enum SessionCall {
    /// Opens a session in the context of this number; `all`, without component selection.
    Begin { context: u32, all: bool },
    Disable,
    Gather,
    Component,
    Document,
    Start,
    Add,
    Prepare,
    Snapshot,
    Await,
    Status,
    Complete,
    Abort,
    End,
}

impl SessionCall {
    /// Whether the table allows the call in this stage, in a context with writers or in one without.
    pub fn is_allowed(self, stage: Stage, writers: bool) -> bool
        ensures { result ≡ allows stage writers self }
    {
        match self {
            SessionCall::Begin { .. } => false,
            SessionCall::Disable | SessionCall::Gather => stage == Stage::Opened && writers,
            SessionCall::Component => {
                (stage == Stage::Gathered || stage == Stage::Started) && writers
            }
            SessionCall::Document => stage != Stage::Opened && writers,
            SessionCall::Start => {
                stage
                    == if writers {
                        Stage::Gathered
                    } else {
                        Stage::Opened
                    }
            }
            SessionCall::Add => stage == Stage::Started,
            SessionCall::Prepare => stage == Stage::Started && writers,
            SessionCall::Snapshot => {
                stage
                    == if writers {
                        Stage::Prepared
                    } else {
                        Stage::Started
                    }
            }
            SessionCall::Complete => stage == Stage::Done && writers,
            SessionCall::Abort => stage.makes_set(),
            SessionCall::Await | SessionCall::Status | SessionCall::End => true,
        }
    }

    /// Whether the call does not wait for the running agenda to end.
    pub fn goes_beside_agenda(self) -> bool
        ensures { result ≡ goes_beside_agenda self }
    {
        match self {
            SessionCall::Await | SessionCall::Status | SessionCall::Abort | SessionCall::End => {
                true
            }
            SessionCall::Begin { .. }
            | SessionCall::Disable
            | SessionCall::Gather
            | SessionCall::Component
            | SessionCall::Document
            | SessionCall::Start
            | SessionCall::Add
            | SessionCall::Prepare
            | SessionCall::Snapshot
            | SessionCall::Complete => false,
        }
    }

    /// Whether a session can be opened in the context that a `begin` names. The other calls name none.
    pub fn has_context(self) -> bool
        ensures { result ≡ has_context self }
    {
        match self {
            SessionCall::Begin { context, all } => context_of(context, all).is_some(),
            SessionCall::Disable
            | SessionCall::Gather
            | SessionCall::Component
            | SessionCall::Document
            | SessionCall::Start
            | SessionCall::Add
            | SessionCall::Prepare
            | SessionCall::Snapshot
            | SessionCall::Await
            | SessionCall::Status
            | SessionCall::Complete
            | SessionCall::Abort
            | SessionCall::End => true,
        }
    }

    /// Whether the call starts a set.
    pub fn is_start(self) -> bool
        ensures { result ≡ is_start self }
    {
        self == SessionCall::Start
    }

    /// Whether the call waits for the running agenda to end.
    pub fn is_await(self) -> bool
        ensures { result ≡ is_await self }
    {
        self == SessionCall::Await
    }
}
