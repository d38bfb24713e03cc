ghost use Rattle.std.specs.Prelude.{◌≡◌, Some};
ghost use Rattle.turn_cell.specs.History.{Makes};

use crate::machine::Machine;
use std::snapshot::Snapshot;
use vss_names::OutOfMemory;

/// What was asked and answered while the machine was out. It has no bytes.
pub(crate) struct Note<C, R> {
    pub(crate) call: Snapshot<C>,
    pub(crate) answer: Snapshot<Result<R, OutOfMemory>>,
}

/// What lies in the slot: the machine, with a note of the last move that was made with it.
pub(crate) struct Desk<M, C, R> {
    pub(crate) machine: M,
    pub(crate) note: Option<Note<C, R>>,
}

impl<M: Machine> Desk<M, M::Call, M::Reply> {
    /// Steps the machine, and notes what was asked and answered.
    pub(crate) fn step(&mut self, number: u32, call: M::Call) -> Result<M::Reply, OutOfMemory>
        ensures makes { Makes M.steps self.old.machine (record { caller = number; call = call; answer = result }) self.new.machine }
        ensures noted { (note : _) × (self.new.note ≡ Some note) × (note.call.value ≡ call) × (note.answer.value ≡ result) }
    {
        let asked = Snapshot::of(&call);
        let answer = self.machine.step(number, call);
        self.note = Some(Note {
            call: asked,
            answer: Snapshot::of(&answer),
        });
        answer
    }
}

impl<M, C, R> Desk<M, C, R> {
    pub(crate) fn into_machine(self) -> M
        ensures { result ≡ self.machine }
    {
        let Self { machine, note: _ } = self;
        machine
    }
}

impl<C, R> Drop for Note<C, R> {
    fn drop(self) {
        let Self { call: _, answer: _ } = self;
    }
}

impl<M: Drop, C, R> Drop for Desk<M, C, R> {
    fn drop(self) {
        let Self {
            machine: _,
            note: _,
        } = self;
    }
}
