//! How the callers of a turn are made, and how they are taken in at its end.
ghost use Rattle.std.specs.Prelude.{◌≡◌, ◌+◌, ◌<◌, ◌≤◌, false, [], length, map, vec_len, vec_capacity};
ghost use Rattle.std.specs.List.{All};
ghost use Rattle.turn_cell.specs.declared.view.View.TheVariants.{Maker};
ghost use Rattle.turn_cell.specs.Rule.{knowns, is_out};
ghost use Rattle.turn_cell.specs.Callers.{standing, AreNew};

use crate::caller::Caller;
use crate::law::{Board, Place};
use crate::machine::Machine;
use crate::plays::{MakeCaller, TakeIn};

/// Makes so many callers, for which there is room.
pub(crate) fn fill<M: Machine>(
    table: &Board<M>,
    mut maker: Place<M>,
    callers: &mut Vec<Caller<M>>,
    seats: u32,
)
    requires table { (maker.table_id ≡ table.now.shared.table_id) × (0 < table.now.shared.table_id.words) × (table.now.shared.key.seats ≡ seats) }
    requires maker { maker.me ≡ (Maker 0, []) }
    requires room { (callers.old.items ≡ []) × (seats ≤ vec_capacity callers.old) }
    ensures count { vec_len callers.new ≡ seats }
    ensures new { AreNew (λ caller. caller.seat.table_id ≡ table.now.shared.table_id) callers.new.items }
{
    for number in 0..seats {
        let seat = table.shared.split_seat::<MakeCaller>(&mut maker);
        callers.push_reserved(Caller { number, seat });
    }
}

/// Takes all these callers in. One seat speaks for them from then on.
pub(crate) fn gather<M: Machine>(table: &Board<M>, mut callers: Vec<Caller<M>>) -> Place<M>
    requires some { 0 < vec_len callers }
    requires table { All (λ caller. caller.seat.table_id ≡ table.now.shared.table_id) callers.items × (0 < table.now.shared.table_id.words) }
    ensures table { result.table_id ≡ table.now.shared.table_id }
    ensures knows { knowns result.me.0 ≡ map standing callers.items }
    ensures idle { is_out result.me.0 ≡ false }
{
    let mut seat = callers.pop().unwrap().into_seat();
    while let Some(caller) = callers.pop() {
        table
            .shared
            .join_seat::<TakeIn>(&mut seat, caller.into_seat());
    }
    callers.destroy_empty();
    seat
}
