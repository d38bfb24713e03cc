ghost use Rattle.std.specs.Prelude.{◌≡◌, ◌<◌, ◌^◌, false, true, length, Some, None, IfOk, OnErr};
ghost use Rattle.coordinator.specs.Coordinator.{writer_count};
ghost use Rattle.set_agenda.specs.Advance.{are_distinct};
ghost use Rattle.scenario.specs.Bounds.{IsPlan, IsSpan};
ghost use Rattle.scenario.specs.declared.op.Op.TheVariants as op;
ghost use Rattle.sessions.specs.Keeps.{IsStandingIn, Leaves};
ghost use Rattle.block_data.specs.BlockBytes.{sha256};
ghost use Rattle.sessions.specs.Moves.{IsDocumentIn, IsGoneAs, IsGoneIn, LetsGo, takes_all_of};
ghost use Rattle.sessions.specs.Concluded.{told_named};

use crate::session_move::SessionMove;
use crate::sessions::Sessions;
use block_data::digest;
use component_doc::{AddFault, Selection};
use requestor::{Mode, SessionCall};
use scenario::{Scenario, Span};
use set_agenda::Kind;
use std::alloc::Global;
use vss_model::Told;
use vss_names::{OutOfMemory, Text, VssResult};

impl Sessions {
    /// The participants are chosen, and asked to prepare.
    pub(crate) fn prepare(
        &mut self,
        alloc: Global,
        scenario: &Scenario,
        lane: u32,
        volumes: &[u32],
    ) -> Result<SessionMove, OutOfMemory>
        requires distinct { are_distinct volumes.now ≡ true }
        requires standing { IsStandingIn scenario.now self.old }
        requires plan { IsPlan scenario.now }
        requires goes { LetsGo self.old lane SessionCall.Prepare }
        ensures gone { IfOk result (IsGoneAs scenario.now volumes.now self.old self.new lane op.Prepare) }
        ensures unchanged { OnErr result (self.new ≡ self.old) }
        ensures leaves { Leaves self.old self.new }
    {
        let _lane = lane;
        if volumes.is_empty() {
            return Ok(SessionMove::alone(Told::Result(VssResult::BadState)));
        }
        if !self.takes_all() {
            return self.begin_agenda(alloc, Kind::Prepare, volumes, None);
        }
        let metas = self.metas(alloc, scenario)?;
        let selection = Selection::all(alloc, &metas)?;
        self.begin_agenda(alloc, Kind::Prepare, volumes, Some(&selection))
    }

    /// Whether the session takes all components of the writers that it knows.
    fn takes_all(&self) -> bool
        ensures { result ≡ takes_all_of self.now.requestor.session }
    {
        match self.requestor.mode() {
            Some(Mode::All) => true,
            Some(Mode::Components) | None => false,
        }
    }

    /// A component is named by its writer and its full name.
    pub(crate) fn component(
        &mut self,
        alloc: Global,
        scenario: &Scenario,
        lane: u32,
        writer: u32,
        full: Span,
    ) -> Result<SessionMove, OutOfMemory>
        requires standing { IsStandingIn scenario.now self.old }
        requires plan { IsPlan scenario.now }
        requires span { IsSpan scenario.now full }
        requires goes { LetsGo self.old lane SessionCall.Component }
        ensures gone { IfOk result (IsGoneIn scenario.now self.old self.new lane (op.Component writer full)) }
        ensures unchanged { OnErr result (self.new ≡ self.old) }
        ensures leaves { Leaves self.old self.new }
    {
        let _lane = lane;
        if self.takes_all() {
            return Ok(SessionMove::alone(Told::Result(VssResult::BadState)));
        }
        let metas = self.metas(alloc, scenario)?;
        let name = scenario.token(full);
        let added = self.selection.add(alloc, &metas, writer, name);
        Ok(SessionMove::alone(told_of_naming(added)?))
    }

    /// The component document of what the session selects, by its length and digest.
    pub(crate) fn document(
        &mut self,
        alloc: Global,
        scenario: &Scenario,
        lane: u32,
    ) -> Result<SessionMove, OutOfMemory>
        requires standing { IsStandingIn scenario.now self.old }
        requires plan { IsPlan scenario.now }
        requires goes { LetsGo self.old lane SessionCall.Document }
        ensures gone { IfOk result (IsGoneIn scenario.now self.old self.new lane op.Document) }
        ensures unchanged { OnErr result (self.new ≡ self.old) }
        ensures leaves { Leaves self.old self.new }
    {
        let text = self.document_text(alloc, scenario, lane)?;
        Ok(SessionMove::alone(told_of(&text)?))
    }

    /// The component document of what the session selects.
    fn document_text(
        &self,
        alloc: Global,
        scenario: &Scenario,
        lane: u32,
    ) -> Result<Text, OutOfMemory>
        requires standing { IsStandingIn scenario.now self.now }
        requires plan { IsPlan scenario.now }
        requires goes { LetsGo self.now lane SessionCall.Document }
        ensures { IfOk result (λ text. IsDocumentIn scenario.now self.now text.bytes) }
    {
        let _lane = lane;
        let Some(context) = self.requestor.context() else {
            // without a session the checks refuse `document`
            return Err(OutOfMemory);
        };
        let metas = self.metas(alloc, scenario)?;
        if self.takes_all() {
            let selection = Selection::all(alloc, &metas)?;
            return selection.to_json(alloc, &metas, context);
        }
        self.selection.to_json(alloc, &metas, context)
    }
}

/// The reply to a `component` line.
fn told_of_naming(added: Result<(), AddFault>) -> Result<Told, OutOfMemory>
    ensures told { IfOk result (λ told. told_named added ≡ Some told) }
    ensures memory { OnErr result (told_named added ≡ None) }
{
    match added {
        Ok(()) => Ok(Told::Ok),
        Err(AddFault::NotFound) => Ok(Told::Result(VssResult::ObjectNotFound)),
        Err(AddFault::NotSelectable) => Ok(Told::NotSelectable),
        Err(AddFault::AlreadyExists) => Ok(Told::Result(VssResult::ObjectAlreadyExists)),
        Err(AddFault::OutOfMemory) => Err(OutOfMemory),
    }
}

/// The reply shows the length and the digest of a document. For one of 4 GiB or more, which no scenario has, there is no
/// memory.
fn told_of(text: &Text) -> Result<Told, OutOfMemory>
    ensures { IfOk result (λ told. told ≡ Told.Document (length text.now.bytes) (sha256 text.now.bytes)) }
{
    let bytes = text.bytes();
    if bytes.len() > u32::MAX as usize {
        return Err(OutOfMemory);
    }
    Ok(Told::Document {
        length: bytes.len() as u32,
        digest: digest(bytes),
    })
}
