use crate::room::Room;
use std::sync::Wait;
use std::thread::yield_now;

/// How an actor waits that was blocked: in a room, where there is one, and else by letting other threads run.
pub struct Guest<'a> {
    room: Option<&'a Room>,
    actor: usize,
    /// Whether it moved since it was blocked last.
    moved: bool,
    /// The room's round before it asked last, or an earlier one.
    round: u64,
}

impl<'a> Guest<'a> {
    /// The actor of this number, which comes into a room; none where it is alone.
    pub fn new<R: Wait>(rt: &R, room: Option<&'a Room>, actor: usize) -> Guest<'a> {
        let round = match room {
            Some(room) => room.come(rt),
            None => 0,
        };
        Guest {
            room,
            actor,
            moved: false,
            round,
        }
    }

    /// After it moved.
    pub fn has_moved(&mut self) {
        self.moved = true;
    }

    /// After it was blocked.
    pub fn wait<R: Wait>(&mut self, rt: &R) {
        let Some(room) = self.room else {
            yield_now();
            return;
        };
        self.round = room.rest(rt, self.actor, self.moved, self.round);
        self.moved = false;
    }

    /// After its last ask.
    pub fn leave<R: Wait>(&mut self, rt: &R) {
        if let Some(room) = self.room {
            room.leave(rt, self.actor, self.moved);
        }
    }
}

impl<'a> Drop for Guest<'a> {
    fn drop(self) {
        let Self {
            room: _,
            actor: _,
            moved: _,
            round: _,
        } = self;
    }
}
