use crate::line::{Line, RECENT};
use std::alloc::Global;
use std::sync::{Mutex, Wait};
use std::thread::Parker;
use std::time::Duration;
use vss_names::OutOfMemory;

/// How long an actor rests at most, in milliseconds, and as long again for each that rested before it. Then it asks without the
/// floor, since a gate may let the one that has it wait for others.
const REST: u64 = 20;

/// A room beside the turn, in which the actors of a run rest that were blocked. One of them has the floor:
/// it asks until it is blocked again, and then the first of the line has it. So few threads are awake. It is
/// about time alone: of the line it is proved that it loses nobody, and nothing of whom the room wakes.
#[derive(Drop)]
pub struct Room {
    line: Mutex<Line>,
    /// What each actor sleeps on.
    bells: Vec<Parker>,
}

impl Room {
    /// A room for so many actors.
    pub fn new(alloc: Global, actors: usize) -> Result<Room, OutOfMemory> {
        let resting = Vec::with_capacity(alloc, actors)?;
        let recent = Vec::with_capacity(alloc, RECENT + 1)?;
        let hard = Vec::with_capacity(alloc, RECENT + 1)?;
        let moved = Vec::from_elem(alloc, 0u64, actors)?;
        let mut bells = Vec::with_capacity(alloc, actors)?;
        for _bell in 0..actors {
            bells.push(Parker::new())?;
        }
        Ok(Room {
            line: Mutex::new(Line::new(resting, recent, hard, moved)),
            bells,
        })
    }

    /// Wakes an actor.
    fn wake(&self, actor: Option<usize>) {
        let Some(actor) = actor else { return };
        if let Some(bell) = self.bells.get(actor) {
            bell.unpark();
        }
    }

    /// An actor comes. Which round it is.
    pub fn come<R: Wait>(&self, rt: &R) -> u64 {
        self.line.lock(rt).come()
    }

    /// An actor that was blocked, and may have moved before, rests until it has the floor, or for the longest time. It does not
    /// where a round has begun since the one in which it asked, nor where it has nobody to wait for. Which round it is then.
    pub fn rest<R: Wait>(&self, rt: &R, actor: usize, has_moved: bool, round: u64) -> u64 {
        let mut line = self.line.lock(rt);
        let is_old = line.round() != round;
        if has_moved {
            line.begin_round(actor, false);
        }
        if is_old || line.waits_for_nobody() {
            return line.round();
        }
        if !has_moved {
            line.look_back();
        }
        let longest = REST.saturating_mul(line.place());
        let next = line.rest(actor);
        drop(line);
        self.wake(next);
        if let Some(bell) = self.bells.get(actor) {
            bell.park_timeout(rt, Duration::from_millis(longest));
        }
        let mut line = self.line.lock(rt);
        let _ = line.rise(actor);
        line.round()
    }

    /// An actor leaves for good.
    pub fn leave<R: Wait>(&self, rt: &R, actor: usize, has_moved: bool) {
        let mut line = self.line.lock(rt);
        if has_moved {
            line.begin_round(actor, true);
        }
        let next = line.leave(actor);
        drop(line);
        self.wake(next);
    }
}
