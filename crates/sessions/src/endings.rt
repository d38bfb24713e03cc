ghost use Rattle.std.specs.Prelude.{◌≡◌, ◌||◌, length, None, false};
ghost use Rattle.vss_model.specs.Facts.{has_failed};
ghost use Rattle.sessions.specs.Concluded.{ended_so, ends_as, nothing_ends};
ghost use Rattle.sessions.specs.Keeps.{KeepsCounts, Leaves, owner_of};
ghost use Rattle.sessions.specs.Moves.{Concludes, IsFailed, IsFailedSo};
ghost use Rattle.sessions.specs.Sets.{current_of};

use crate::ended::Ended;
use crate::session_move::SessionMove;
use crate::sessions::Sessions;
use coordinator::Effects;
use vss_model::Told;
use vss_names::{SetOutcome, VssResult};

impl Sessions {
    /// An agenda ended with this outcome, or the set failed.
    pub(crate) fn end_so(&mut self, outcome: SetOutcome)
        ensures ended { self.new ≡ ended_so outcome self.old }
        ensures owner { owner_of self.new ≡ owner_of self.old }
        ensures sets { length self.new.sets ≡ length self.old.sets }
    {
        self.requestor.agenda_ended(outcome);
        self.sets.settle(outcome);
    }

    /// What follows from a step of the course, of which the coordinator told these effects.
    pub(crate) fn conclude(&mut self, told: Told, effects: Effects) -> SessionMove
        ensures concludes { Concludes told effects self.old self.new result }
        ensures told { result.outcome.told ≡ told }
        ensures coordinator { self.new.coordinator ≡ self.old.coordinator }
        ensures clock { self.new.clock ≡ self.old.clock }
        ensures sets { length self.new.sets ≡ length self.old.sets }
    {
        if !ends(effects.outcome, effects.agenda_ended) {
            return SessionMove::of(told, effects.lost, effects.lost_order, nothing_ends());
        }
        let current = self.sets.current();
        self.end_so(effects.outcome);
        let ended = ends_as(current, effects.outcome);
        SessionMove::of(told, effects.lost, effects.lost_order, ended)
    }

    /// The set in progress fails; its number, where there was one. Its images are the caller's to drop.
    pub fn fail(&mut self, why: VssResult) -> Option<u32>
        ensures failed { IsFailed self.old self.new why }
        ensures set { result ≡ current_of self.old.sets }
        ensures owner { owner_of self.new ≡ owner_of self.old }
        ensures counts { KeepsCounts self.old self.new }
        ensures leaves { Leaves self.old self.new }
    {
        let set = self.sets.current();
        let _move = self.fail_so(why);
        set
    }

    /// The same, as the move of a line.
    pub(crate) fn fail_so(&mut self, why: VssResult) -> SessionMove
        ensures failed { IsFailedSo self.old self.new why result }
        ensures kept { result.released ≡ None }
        ensures owner { owner_of self.new ≡ owner_of self.old }
        ensures counts { KeepsCounts self.old self.new }
    {
        let Some(set) = self.sets.current() else {
            return SessionMove::alone(Told::Ok);
        };
        let _effects = self.coordinator.fail(why);
        let failed = SetOutcome::Failed(why);
        self.end_so(failed);
        SessionMove::of(Told::Ok, 0, None, ends_as(Some(set), failed))
    }
}

/// Whether something ends: the set, by its failure, or an agenda.
fn ends(outcome: SetOutcome, agenda_ended: bool) -> bool
    ensures { result ≡ (has_failed outcome || agenda_ended) }
{
    match outcome {
        SetOutcome::Failed(_) => true,
        SetOutcome::Running | SetOutcome::Complete => agenda_ended,
    }
}

/// No set ends.
pub(crate) fn nothing_ends() -> Ended
    ensures { result ≡ nothing_ends }
{
    Ended {
        set: 0,
        result: SetOutcome::Running,
    }
}

/// What ends where this set was in progress.
pub(crate) fn ends_as(current: Option<u32>, outcome: SetOutcome) -> Ended
    ensures { result ≡ ends_as current outcome }
{
    let Some(set) = current else {
        return nothing_ends();
    };
    match outcome {
        SetOutcome::Running => nothing_ends(),
        SetOutcome::Complete | SetOutcome::Failed(_) => Ended {
            set,
            result: outcome,
        },
    }
}
