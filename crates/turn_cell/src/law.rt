//! The table that all callers share. Word 0 is the ticket that is served, word 1 the next one to be drawn, and each
//! further word is a bell that a waiting caller sleeps on. The slot holds the machine, and is empty while the turn is out.
use crate::desk::Desk;
use crate::machine::Machine;
use crate::view::View;
use atomic_table::{Seat, Table, TableRule};
use std::alloc::Global;
use std::marker::PhantomData;
use std::snapshot::Snapshot;

/// What the table is told once: the machine as it came, and for how many callers.
pub(crate) struct Opening<M> {
    pub(crate) machine: Snapshot<M>,
    pub(crate) seats: u32,
}

impl<M> Drop for Opening<M> {
    fn drop(self) {
        let Self {
            machine: _,
            seats: _,
        } = self;
    }
}

pub(crate) struct Law<M> {
    machine: PhantomData<M>,
}

impl<M: Machine> TableRule<Desk<M, M::Call, M::Reply>, View<M, M::Call, M::Reply>, Opening<M>>
    for Law<M> {
    ghost use Rattle.turn_cell.specs.Rule.{Orderly};
    ghost use Rattle.turn_cell.specs.declared.view.View.TheVariants.{Maker};

    ghost holds = { λ key. Orderly M.steps key.machine.value key.seats };

    ghost first = { λ key. Maker 0 };
}

pub(crate) type Board<M> = Table<
    Desk<M, <M as Machine>::Call, <M as Machine>::Reply>,
    View<M, <M as Machine>::Call, <M as Machine>::Reply>,
    Opening<M>,
    Law<M>,
    Global,
>;

pub(crate) type Place<M> = Seat<
    Desk<M, <M as Machine>::Call, <M as Machine>::Reply>,
    View<M, <M as Machine>::Call, <M as Machine>::Reply>,
>;
