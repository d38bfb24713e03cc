//! What one call does on the table: it waits for its ticket, steps the machine, and lets the next one in.
ghost use Rattle.std.specs.Prelude.{◌≡◌, ◌+◌, ◌%◌, ◌^◌, ◌<◌, ◌≤◌, false, [], ◌∷◌, ◌++◌, length};
ghost use Rattle.turn_cell.specs.declared.view.View.TheVariants.{Idle, Waiting, Holding};

use super::Turn;
use crate::law::Place;
use crate::machine::Machine;
use crate::plays::{Await, Ring, Serve};
use crossbeam_utils::Backoff;
use std::sync::Wait;
use vss_names::OutOfMemory;

impl<M: Machine> Turn<M> {
    ghost use Rattle.turn_cell.specs.History.{entries_of};
    ghost use Rattle.turn_cell.specs.Rule.{is_out};
    ghost use Rattle.turn_cell.specs.Steps.{known, ticket_of, having, Takes, Carries};

    // The word on which the holder of a ticket sleeps.
    fn bell(&self, ticket: u64) -> usize
        ensures { (2 ≤ result) × (result < self.now.table.shared.table_id.words) }
    {
        2 + (ticket % self.seats as u64) as usize
    }

    // Waits until the ticket is served, and takes the machine. It spins, then yields, then sleeps.
    pub(super) fn wait<R: Wait>(&self, rt: &R, seat: &mut Place<M>, ticket: u64)
        requires turn { seat.old.table_id ≡ self.now.table.shared.table_id }
        requires waiting { seat.old.me ≡ (Waiting (known seat.old.me.0) (ticket_of seat.old.me.0), []) }
        requires ticket { ticket ≡ ticket_of seat.old.me.0 % 2 ^ 64 }
        ensures same { (seat.new.table_id ≡ seat.old.table_id) × (seat.new.id ≡ seat.old.id) }
        ensures takes { Takes seat.old.me seat.new.me }
    {
        let bell = self.bell(ticket);
        let backoff = Backoff::new();
        for _ in rt.forever() {
            let rung = self.table.shared.peek(bell);
            let serving = self.table.shared.load::<Await>(seat, 0);
            if serving == ticket {
                return;
            }
            if backoff.is_completed() {
                self.table.shared.park(rt, bell, (rung % (1 << 32)) as u32);
            } else {
                backoff.snooze();
            }
        }
        unreachable!()
    }

    // Steps the machine, which the seat holds.
    pub(super) fn step(
        &self,
        seat: &mut Place<M>,
        number: u32,
        call: M::Call,
    ) -> Result<M::Reply, OutOfMemory>
        requires turn { seat.old.table_id ≡ self.now.table.shared.table_id }
        requires holding { (d : _) × (seat.old.me ≡ (Holding (known seat.old.me.0) (ticket_of seat.old.me.0) d.machine, (0, d) ∷ [])) }
        requires number { number ≡ (known seat.old.me.0).number }
        ensures same { (seat.new.table_id ≡ seat.old.table_id) × (seat.new.id ≡ seat.old.id) × (seat.new.me.0 ≡ seat.old.me.0) }
        ensures carries { Carries M.steps seat.new.me (record { caller = number; call = call; answer = result }) }
    {
        let desk = seat.slot_mut(&self.table.shared, 0);
        desk.step(number, call)
    }

    // Brings the machine home, and lets the next ticket in. It returns the number of entries with this one.
    pub(super) fn serve(&self, seat: &mut Place<M>, ticket: u64) -> u64
        requires turn { seat.old.table_id ≡ self.now.table.shared.table_id }
        requires carries { (e : _) × Carries M.steps seat.old.me e }
        ensures same { (seat.new.table_id ≡ seat.old.table_id) × (seat.new.id ≡ seat.old.id) }
        ensures entry { (e : _) → Carries M.steps seat.old.me e → (seat.new.me ≡ (Idle (having (known seat.old.me.0) e), [])) × (entries_of (known seat.old.me.0).number ((known seat.old.me.0).seen ++ e ∷ []) ≡ (known seat.old.me.0).mine ++ e ∷ []) }
        ensures front { result ≡ (length (known seat.old.me.0).seen + 1) % 2 ^ 64 }
    {
        let served = self.table.shared.fetch_add::<Serve>(seat, 0, 1);
        self.ring(seat, ticket.wrapping_add(1));
        served.wrapping_add(1)
    }

    // Wakes the holder of the ticket, if somebody drew it.
    fn ring(&self, seat: &mut Place<M>, ticket: u64)
        requires turn { seat.old.table_id ≡ self.now.table.shared.table_id }
        requires idle { is_out seat.old.me.0 ≡ false }
        ensures { (seat.new.table_id ≡ seat.old.table_id) × (seat.new.id ≡ seat.old.id) × (seat.new.me ≡ seat.old.me) }
    {
        if self.table.shared.peek(1) != ticket {
            let bell = self.bell(ticket);
            self.table.shared.fetch_add::<Ring>(seat, bell, 1);
            self.table.shared.wake_all(bell);
        }
    }
}
