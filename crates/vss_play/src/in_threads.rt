ghost use Rattle.std.specs.Prelude.{◌≡◌, ◌+◌, ◌<◌, ◌≤◌, ℕ, length, slice_get, slice_index_or, vec_len, IfOk};
ghost use Rattle.std.specs.List.{All};
ghost use Rattle.turn_cell.specs.Callers.{standing, Calls};
ghost use Rattle.vss_play.specs.Acting.{HasActed, IsPlayedInThreads, actors_in_threads};
ghost use Rattle.vss_play.specs.Played.{IsPlayedOut};

use crate::actor_loop::take_turns_as;
use crate::gate::Gate;
use crate::guest::Guest;
use crate::in_turn::play_in_turn;
use crate::play::Play;
use crate::room::Room;
use std::alloc::Global;
use std::sync::Wait;
use std::thread;
use std::thread::Threads;
use turn_cell::{Caller, Turn};
use volume_device::Device;
use vss_names::OutOfMemory;
use write_history::Actor;

/// Those who act in threads of their own: each lane, each writer and the provider.
pub fn actors_of<D: Device>(alloc: Global, play: &Play<D>) -> Result<Vec<Actor>, OutOfMemory>
    ensures each { IfOk result (λ actors. actors.items ≡ actors_in_threads play.now.plan) }
    ensures count { IfOk result (λ actors. (1 ≤ vec_len actors) × (vec_len actors ≤ 129)) }
{
    let (lanes, writers) = (play.lanes(), play.writers());
    let mut actors = Vec::with_capacity(alloc, (lanes + writers + 1) as usize)?;
    for lane in 0..lanes {
        actors.push(Actor::Lane(lane))?;
    }
    for writer in 0..writers {
        actors.push(Actor::Writer(writer))?;
    }
    actors.push(Actor::Advance)?;
    Ok(actors)
}

/// Each of these callers makes the moves of its actor, in a thread of its own where one can be made.
fn act_all<R: Threads + Wait + Sync, D: Device + Send, G: Gate>(
    rt: &R,
    turn: &Turn<Play<D>>,
    callers: &mut [Caller<Play<D>>],
    actors: &[Actor],
    gate: &G,
    room: &Room,
)
    requires some { 0 < length callers.old }
    requires each { length callers.old ≡ length actors.now }
    requires own { All (λ caller. Calls caller turn.now) callers.old }
    ensures own { All (λ caller. Calls caller turn.now) callers.new }
    ensures acted { (i : ℕ) (d : _) → i < length callers.old → HasActed (slice_get actors.now i) (standing (slice_index_or callers.old i d)) (standing (slice_index_or callers.new i d)) }
{
    let count = callers.len();
    thread::for_each_mut(
        rt,
        callers,
        count,
        &|i, caller: &mut Caller<Play<D>>|
            requires { (i < length actors.now) × Calls caller.old turn.now }
            ensures { Calls caller.new turn.entry.now × HasActed (slice_get actors.entry.now i) (standing caller.old) (standing caller.new) }
        {
            let mut guest = Guest::new(rt, Some(room), i);
            let _ = take_turns_as(rt, turn, caller, actors[i], gate, &mut guest);
            guest.leave(rt);
        },
    );
}

/// Makes moves until the trail is complete. Each lane, each writer and the provider makes its own in a thread of its own, in the order
/// in which they come to the turn, until none can for a while; then the rest is made as by `play_in_turn`. So the order of moves is
/// whichever the threads took. Where memory is wanting the run is dropped, with its devices.
pub fn play_all<R: Threads + Wait + Sync, D: Device + Send, G: Gate>(
    rt: &R,
    alloc: Global,
    play: Play<D>,
    gate: &G,
) -> Result<Play<D>, OutOfMemory>
    ensures played { IfOk result (IsPlayedOut D.Device play) }
    ensures threads { IfOk result (IsPlayedInThreads D.Device play) }
{
    let actors = actors_of(alloc, &play)?;
    let room = Room::new(alloc, actors.len())?;
    let (turn, mut callers) = Turn::new(alloc, play, actors.len() as u32)?;
    act_all(
        rt,
        &turn,
        callers.as_mut_slice(),
        actors.as_slice(),
        gate,
        &room,
    );
    let played = turn.close(callers);
    let _kept = played.lines();
    play_in_turn(alloc, played)
}
