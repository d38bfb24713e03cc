ghost use Rattle.std.specs.Prelude.{◌≡◌, ◌<◌, ◌+◌, ◌++◌, ◌∷◌, [], map, length, option_map, IfOk, OnOk};
ghost use Rattle.component_doc.specs.Over.{metas_of};
ghost use Rattle.coordinator.specs.Coordinator.{writer_count};
ghost use Rattle.scenario.specs.Plan.{Plan};
ghost use Rattle.writer_meta.specs.Metadata.{meta_of};
ghost use Rattle.vss_model.specs.Sessions.{is_identify_failure, is_known, known_metas, meta_if};
ghost use Rattle.vss_model.specs.State.{State};
ghost use Rattle.sessions.specs.Keeps.{IsOf, Keeps};

use crate::sessions::Sessions;
use component_doc::Metas;
use scenario::Scenario;
use std::alloc::Global;
use vss_names::{OutOfMemory, WriterState};
use writer_meta::Metadata;

impl Sessions {
    /// Whether the session has the writer's metadata: it is not disabled, and has not failed at Identify.
    pub(crate) fn knows(&self, writer: u32) -> bool
        requires { writer < writer_count self.now.coordinator }
        ensures { (s : Plan) (st : State) → Keeps self.now st → IsOf self.now s → result ≡ is_known s st writer }
    {
        if self.coordinator.is_disabled(writer) {
            return false;
        }
        let row = self.coordinator.row(writer);
        !has_failed_identify(row.state)
    }

    /// The metadata that the session has, of those of all writers.
    pub(crate) fn metas<'a>(
        &self,
        alloc: Global,
        scenario: &'a Scenario,
    ) -> Result<Metas<'a>, OutOfMemory>
        requires { IsOf self.now scenario.now }
        ensures known { IfOk result (λ metas. (st : State) → Keeps self.now st → metas_of metas ≡ known_metas scenario.now st) }
        ensures count { IfOk result (λ metas. length metas ≡ length scenario.now.writers) }
    {
        let mut known = Vec::new(alloc);
        for writer in 0..scenario.writers() {
            push_if(&mut known, self.knows(writer), scenario.metadata(writer))?;
        }
        Ok(Metas::of(known))
    }
}

/// The metadata, where they are known.
fn push_if<'a>(
    known: &mut Vec<Option<&'a Metadata>>,
    is_known: bool,
    metadata: &'a Metadata,
) -> Result<(), OutOfMemory>
    ensures count { OnOk result (length known.new.items ≡ length known.old.items + 1) }
    ensures seen { OnOk result (metas_of (map (option_map (λ found. found.now)) known.new.items) ≡ metas_of (map (option_map (λ found. found.now)) known.old.items) ++ meta_if is_known (meta_of metadata.now) ∷ []) }
{
    if is_known {
        known.push(Some(metadata))?;
    } else {
        known.push(None)?;
    }
    Ok(())
}

fn has_failed_identify(state: WriterState) -> bool
    ensures { result ≡ is_identify_failure state }
{
    match state {
        WriterState::FailedAtIdentify => true,
        WriterState::Unknown
        | WriterState::Stable
        | WriterState::WaitingForFreeze
        | WriterState::WaitingForThaw
        | WriterState::WaitingForPostSnapshot
        | WriterState::WaitingForBackupComplete
        | WriterState::FailedAtPrepareBackup
        | WriterState::FailedAtPrepareSnapshot
        | WriterState::FailedAtFreeze
        | WriterState::FailedAtThaw
        | WriterState::FailedAtPostSnapshot
        | WriterState::FailedAtBackupComplete
        | WriterState::FailedAtPreRestore
        | WriterState::FailedAtPostRestore
        | WriterState::FailedAtBackupShutdown => false,
    }
}
