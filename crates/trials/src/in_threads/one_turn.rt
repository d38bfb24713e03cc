//! Actors that come to one turn, one after another.

ghost use Rattle.std.specs.Prelude.{◌≡◌, ◌<◌, vec_len};
ghost use Rattle.std.specs.List.{All};
ghost use Rattle.turn_cell.specs.Callers.{Calls};

use crate::in_threads::counting_gate::CountingGate;
use crate::in_threads::trial_error::TrialError;
use std::sync::Wait;
use turn_cell::{Caller, Turn};
use volume_device::Device;
use vss_names::OutOfMemory;
use vss_play::{Play, take_turns};
use write_history::Actor;

/// A caller makes the moves of an actor until it leaves. How many entries the turn has then.
fn come<R: Wait, D: Device>(
    rt: &R,
    turn: &Turn<Play<D>>,
    caller: &mut Caller<Play<D>>,
    actor: Actor,
    gate: &CountingGate,
) -> Result<u64, OutOfMemory>
    requires { Calls caller.old turn.now }
    ensures { Calls caller.new turn.now }
{
    take_turns(rt, turn, caller, actor, gate)?;
    Ok(turn.front(caller))
}

/// The caller of a seat does so.
fn come_from<R: Wait, D: Device>(
    rt: &R,
    turn: &Turn<Play<D>>,
    callers: &mut Vec<Caller<Play<D>>>,
    seat: usize,
    actor: Actor,
    gate: &CountingGate,
) -> Result<u64, OutOfMemory>
    requires seat { seat < vec_len callers.old }
    requires own { All (λ caller. Calls caller turn.now) callers.old.items }
    ensures own { All (λ caller. Calls caller turn.now) callers.new.items }
    ensures many { vec_len callers.new ≡ vec_len callers.old }
{
    come(rt, turn, &mut callers[seat], actor, gate)
}

/// An actor comes to the turn, by the caller of a seat. Writes how many entries the turn has as it leaves.
fn one_comes<R: Wait, D: Device>(
    rt: &HostRuntime,
    threads: &R,
    turn: &Turn<Play<D>>,
    callers: &mut Vec<Caller<Play<D>>>,
    seat: usize,
    actor: Actor,
    gate: &CountingGate,
) -> Result<(), TrialError>
    requires { All (λ caller. Calls caller turn.now) callers.old.items }
    ensures own { All (λ caller. Calls caller turn.now) callers.new.items }
    ensures many { vec_len callers.new ≡ vec_len callers.old }
{
    if seat >= callers.len() {
        return Err(TrialError::Scenario);
    }
    let front = come_from(threads, turn, callers, seat, actor, gate)?;
    println!(rt; "front {front}")?;
    Ok(())
}

/// The first lane comes to the turn, then the provider, by the caller of the last seat, and then the lane again.
fn come_all<R: Wait, D: Device>(
    rt: &HostRuntime,
    threads: &R,
    turn: &Turn<Play<D>>,
    callers: &mut Vec<Caller<Play<D>>>,
    last: usize,
    gate: &CountingGate,
) -> Result<(), TrialError>
    requires { All (λ caller. Calls caller turn.now) callers.old.items }
    ensures own { All (λ caller. Calls caller turn.now) callers.new.items }
    ensures many { vec_len callers.new ≡ vec_len callers.old }
{
    one_comes(rt, threads, turn, callers, 0, Actor::Lane(0), gate)?;
    one_comes(rt, threads, turn, callers, last, Actor::Advance, gate)?;
    one_comes(rt, threads, turn, callers, 0, Actor::Lane(0), gate)
}

/// A run, where all came that were to come.
fn where_all_came<D: Device>(
    play: Play<D>,
    came: Result<(), TrialError>,
) -> Result<Play<D>, TrialError> {
    came?;
    Ok(play)
}

/// The actors come to a turn over a run. The run as they left it.
pub fn share_turn<R: Wait, D: Device>(
    rt: &HostRuntime,
    threads: &R,
    play: Play<D>,
    gate: &CountingGate,
) -> Result<Play<D>, TrialError> {
    let last = play.lanes() + play.writers();
    let (turn, mut callers) = Turn::new(rt.alloc(), play, last + 1)?;
    let ended = come_all(rt, threads, &turn, &mut callers, last as usize, gate);
    where_all_came(turn.close(callers), ended)
}
