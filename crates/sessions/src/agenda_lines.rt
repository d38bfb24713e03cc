ghost use Rattle.std.specs.Prelude.{◌≡◌, false, true, IfOk, OnErr};
ghost use Rattle.coordinator.specs.Coordinator.{MayPost, writer_count};
ghost use Rattle.set_agenda.specs.Advance.{are_distinct};
ghost use Rattle.scenario.specs.Plan.{Plan};
ghost use Rattle.scenario.specs.declared.op.Op.TheVariants as op;
ghost use Rattle.sessions.specs.Keeps.{Leaves};
ghost use Rattle.sessions.specs.Moves.{IsGoneAs, IsGoneIn, LetsGo};

use crate::session_move::SessionMove;
use crate::sessions::Sessions;
use requestor::SessionCall;
use set_agenda::Kind;
use std::alloc::Global;
use vss_model::Told;
use vss_names::{OutOfMemory, VssResult};

impl Sessions {
    /// The writers are gathered.
    pub(crate) fn gather(&mut self, alloc: Global, lane: u32) -> Result<SessionMove, OutOfMemory>
        requires room { MayPost self.old.coordinator }
        requires over { self.old.selection.writers ≡ writer_count self.old.coordinator }
        requires goes { LetsGo self.old lane SessionCall.Gather }
        ensures gone { IfOk result (λ m. (s : Plan) → IsGoneIn s self.old self.new lane op.Gather m) }
        ensures unchanged { OnErr result (self.new ≡ self.old) }
        ensures leaves { Leaves self.old self.new }
    {
        let _lane = lane;
        self.begin_agenda(alloc, Kind::Gather, &[], None)
    }

    /// The writers that take part are told that the backup is complete.
    pub(crate) fn complete(&mut self, alloc: Global, lane: u32) -> Result<SessionMove, OutOfMemory>
        requires room { MayPost self.old.coordinator }
        requires over { self.old.selection.writers ≡ writer_count self.old.coordinator }
        requires goes { LetsGo self.old lane SessionCall.Complete }
        ensures gone { IfOk result (λ m. (s : Plan) → IsGoneIn s self.old self.new lane op.Complete m) }
        ensures unchanged { OnErr result (self.new ≡ self.old) }
        ensures leaves { Leaves self.old self.new }
    {
        let _lane = lane;
        self.begin_agenda(alloc, Kind::Complete, &[], None)
    }

    /// The snapshot of the set's volumes is made.
    pub(crate) fn snapshot(
        &mut self,
        alloc: Global,
        lane: u32,
        volumes: &[u32],
    ) -> Result<SessionMove, OutOfMemory>
        requires distinct { are_distinct volumes.now ≡ true }
        requires room { MayPost self.old.coordinator }
        requires over { self.old.selection.writers ≡ writer_count self.old.coordinator }
        requires goes { LetsGo self.old lane SessionCall.Snapshot }
        ensures gone { IfOk result (λ m. (s : Plan) → IsGoneAs s volumes.now self.old self.new lane op.Snapshot m) }
        ensures unchanged { OnErr result (self.new ≡ self.old) }
        ensures leaves { Leaves self.old self.new }
    {
        let _lane = lane;
        if volumes.is_empty() {
            return Ok(SessionMove::alone(Told::Result(VssResult::BadState)));
        }
        self.begin_agenda(alloc, Kind::Snapshot, volumes, None)
    }
}
