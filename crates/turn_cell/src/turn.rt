ghost use Rattle.std.specs.Prelude.{◌≡◌, ◌+◌, ◌%◌, ◌^◌, ◌<◌, ◌≤◌, [], ◌∷◌, ◌++◌, length, vec_len, map, IfOk};
ghost use Rattle.std.specs.List.{All};
ghost use mathlib.Core.List.{IsPrefix};

mod steps;

use crate::caller::Caller;
use crate::desk::Desk;
use crate::entry::Answered;
use crate::law::{Board, Opening};
use crate::machine::Machine;
use crate::plays::{Draw, Look};
use crate::seating::{fill, gather};
use atomic_table::Table;
use std::alloc::Global;
use std::snapshot::Snapshot;
use std::sync::Wait;
use vss_names::OutOfMemory;

/// A machine that its callers step one at a time, in the order of the tickets that they draw. Every call is one entry
/// of one history.
pub struct Turn<M: Machine> {
    table: Board<M>,
    seats: u32,
    ghost sized: { (table.shared.table_id.words ≡ seats + 2) × (table.shared.table_id.slots ≡ 1) },
    ghost told: { (table.shared.key.seats ≡ seats) × (0 < seats) },
}

impl<M: Machine> Turn<M> {
    ghost use Rattle.turn_cell.specs.History.{entries_of, entry_of, GoesOnTo, Ended};
    ghost use Rattle.turn_cell.specs.Callers.{standing, number, seen, mine, Calls, IsSame, AreNew, opening, seats};
    ghost use Rattle.turn_cell.specs.Callers as Callers;

    /// A turn over this machine, as it is, for 1 to 256 callers, with its callers in the order of their numbers.
    pub fn new(
        alloc: Global,
        machine: M,
        seats: u32,
    ) -> Result<(Turn<M>, Vec<Caller<M>>), OutOfMemory>
    where
        M: Drop,
        requires { (1 ≤ seats) × (seats ≤ 256) }
        ensures turn { IfOk result (λ made. (opening made.0 ≡ machine) × (Callers.seats made.0 ≡ seats)) }
        ensures callers { IfOk result (λ made. (vec_len made.1 ≡ seats) × AreNew (λ caller. Calls caller made.0) made.1.items) }
    {
        let mut callers = Vec::with_capacity(alloc, seats as usize)?;
        let words = Vec::from_elem(alloc, 0u64, seats as usize + 2)?;
        let mut slots = Vec::with_capacity(alloc, 1)?;
        let about = Opening {
            machine: Snapshot::of(&machine),
            seats,
        };
        slots.push_reserved(Desk {
            machine,
            note: None,
        });
        let Ok((table, maker)) = Table::new(alloc, words.as_slice(), slots, &about) else {
            return Err(OutOfMemory);
        };
        fill(&table, maker, &mut callers, seats);
        Ok((Turn { table, seats }, callers))
    }

    /// Makes one call of the machine. It waits for its turn. The call is an entry of the history also where there is no
    /// memory, and the machine is then as it was.
    pub fn call<R: Wait>(
        &self,
        rt: &R,
        caller: &mut Caller<M>,
        call: M::Call,
    ) -> Result<Answered<M::Reply>, OutOfMemory>
        requires { Calls caller.old self.now }
        ensures seen { GoesOnTo (seen caller.old) (entry_of (number caller.old) call result) (seen caller.new) }
        ensures mine { mine caller.new ≡ mine caller.old ++ entry_of (number caller.old) call result ∷ [] }
        ensures own { entries_of (number caller.old) (seen caller.new) ≡ mine caller.new }
        ensures front { IfOk result (λ answered. answered.front ≡ length (seen caller.new) % 2 ^ 64) }
        ensures same { IsSame caller.old caller.new }
    {
        let ticket = self.table.shared.fetch_add::<Draw>(&mut caller.seat, 1, 1);
        self.wait(rt, &mut caller.seat, ticket);
        let answer = self.step(&mut caller.seat, caller.number, call);
        let front = self.serve(&mut caller.seat, ticket);
        let reply = answer?;
        Ok(Answered { front, reply })
    }

    /// The number of entries that the history has now, which the caller then has seen. It waits for nobody.
    pub fn front(&self, caller: &mut Caller<M>) -> u64
        requires { Calls caller.old self.now }
        ensures seen { IsPrefix (seen caller.old) (seen caller.new) }
        ensures mine { mine caller.new ≡ mine caller.old }
        ensures own { entries_of (number caller.old) (seen caller.new) ≡ mine caller.new }
        ensures front { result ≡ length (seen caller.new) % 2 ^ 64 }
        ensures same { IsSame caller.old caller.new }
    {
        self.table.shared.load::<Look>(&mut caller.seat, 0)
    }

    /// The machine, as all calls left it. The callers are all those that were made with the turn.
    pub fn close(self, callers: Vec<Caller<M>>) -> M
        requires all { vec_len callers ≡ seats self }
        requires own { All (λ caller. Calls caller self) callers.items }
        ensures { Ended M.steps (opening self) (seats self) (map standing callers.items) result }
    {
        let Turn { table, seats: _ } = self;
        let seat = gather(&table, callers);
        let mut closed = table.close_with(seat);
        let desk = closed.take(0);
        closed.free();
        desk.into_machine()
    }
}

impl<M: Machine + Drop> Drop for Turn<M> {
    fn drop(self) {
        let Self { table: _, seats: _ } = self;
    }
}
