ghost use Rattle.std.specs.Prelude.{◌≡◌};
ghost use Rattle.requestor.specs.Session.{makes_set, stage_after};

use vss_names::Context;

/// How far a session has come.
#[derive(Clone, Copy, Debug, PartialEq, Eq)]
pub enum Stage {
    Opened,
    /// The writers' metadata are gathered.
    Gathered,
    /// The session's set is started, and volumes and components are added.
    Started,
    /// The writers have answered PrepareBackup.
    Prepared,
    /// The set is complete.
    Done,
    /// The writers have answered BackupComplete.
    Finished,
    /// The set has failed.
    Failed,
}

impl Stage {
    /// Whether the session's set is in progress.
    pub fn makes_set(self) -> bool
        ensures { result ≡ makes_set self }
    {
        match self {
            Stage::Started | Stage::Prepared => true,
            Stage::Opened | Stage::Gathered | Stage::Done | Stage::Finished | Stage::Failed => {
                false
            }
        }
    }

    /// The stage once the running agenda has ended without failing the set.
    pub fn after_agenda(self, context: Context) -> Stage
        ensures { result ≡ stage_after context self }
    {
        match (self, context) {
            (Stage::Opened | Stage::Gathered, _) => Stage::Gathered,
            (Stage::Started, Context::Backup | Context::AppRollback) => Stage::Prepared,
            (Stage::Started, Context::NasRollback) | (Stage::Prepared, _) => Stage::Done,
            (Stage::Done | Stage::Finished, _) => Stage::Finished,
            (Stage::Failed, _) => Stage::Failed,
        }
    }
}
