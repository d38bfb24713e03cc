//! An actor's loop over a run that it shares with others by a turn.

ghost use Rattle.std.specs.Prelude.{◌≡◌, ◌++◌, ◌∷◌, [], OnOk, OnErr};
ghost use mathlib.Core.List.{IsPrefix};
ghost use Rattle.turn_cell.specs.Callers.{number, seen, mine, Calls, IsSame};
ghost use Rattle.vss_play.specs.Acting.{HasTurns, HasLeft, HasWanted};

use crate::gate::Gate;
use crate::guest::Guest;
use crate::moved::Moved;
use crate::play::Play;
use std::sync::Wait;
use turn_cell::{Caller, Turn};
use volume_device::Device;
use vss_names::OutOfMemory;
use write_history::Actor;

/// How many answers Blocked in a row an actor takes before it leaves.
const MOST_BLOCKED: u32 = 1_000;

/// One step of an actor, with the gate before it and after it. If memory is wanting, `after` is not called.
fn take_one<R: Wait, D: Device, G: Gate>(
    rt: &R,
    turn: &Turn<Play<D>>,
    caller: &mut Caller<Play<D>>,
    actor: Actor,
    gate: &G,
) -> Result<Moved, OutOfMemory>
    requires { Calls caller.old turn.now }
    ensures seen { IsPrefix (seen caller.old) (seen caller.new) }
    ensures mine { mine caller.new ≡ mine caller.old ++ record { caller = number caller.old; call = actor; answer = result } ∷ [] }
    ensures same { IsSame caller.old caller.new }
{
    gate.before(actor);
    let moved = turn.call(rt, caller, actor)?.reply;
    gate.after(actor, moved);
    Ok(moved)
}

/// Makes the moves of one actor as `take_turns` does. Where it was blocked it waits as this guest does.
pub(crate) fn take_turns_as<R: Wait, D: Device, G: Gate>(
    rt: &R,
    turn: &Turn<Play<D>>,
    caller: &mut Caller<Play<D>>,
    actor: Actor,
    gate: &G,
    guest: &mut Guest<'_>,
) -> Result<(), OutOfMemory>
    requires { Calls caller.old turn.now }
    ensures seen { IsPrefix (seen caller.old) (seen caller.new) }
    ensures mine { HasTurns actor (mine caller.old) (mine caller.new) }
    ensures left { OnOk result (HasLeft (mine caller.old) (mine caller.new)) }
    ensures wanting { OnErr result (HasWanted (mine caller.old) (mine caller.new)) }
    ensures same { IsSame caller.old caller.new }
{
    let mut blocked = 0u32;
    for _ in rt.forever() {
        match take_one(rt, turn, caller, actor, gate)? {
            Moved::Moved => {
                blocked = 0;
                guest.has_moved();
            }
            Moved::Blocked => {
                blocked += 1;
                if blocked == MOST_BLOCKED {
                    return Ok(());
                }
                guest.wait(rt);
            }
            Moved::Finished => return Ok(()),
        }
    }
    unreachable!()
}

/// Makes the moves of one actor over a run that it shares with others, each by one call of the turn, with `gate.before` before it
/// and `gate.after` after it while no turn is held. Where it was blocked it lets other threads run before it asks again. It leaves once it is
/// finished, or where it was blocked 1,000 times in a row; and where memory is wanting, which changes nothing of the run.
pub fn take_turns<R: Wait, D: Device, G: Gate>(
    rt: &R,
    turn: &Turn<Play<D>>,
    caller: &mut Caller<Play<D>>,
    actor: Actor,
    gate: &G,
) -> Result<(), OutOfMemory>
    requires { Calls caller.old turn.now }
    ensures seen { IsPrefix (seen caller.old) (seen caller.new) }
    ensures mine { HasTurns actor (mine caller.old) (mine caller.new) }
    ensures left { OnOk result (HasLeft (mine caller.old) (mine caller.new)) }
    ensures wanting { OnErr result (HasWanted (mine caller.old) (mine caller.new)) }
    ensures same { IsSame caller.old caller.new }
{
    take_turns_as(rt, turn, caller, actor, gate, &mut Guest::new(rt, None, 0))
}
