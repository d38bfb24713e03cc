ghost use Rattle.std.specs.Prelude.{◌≡◌, ◌+◌, ◌-◌, ◌<◌, ◌≤◌, ◌++◌, ◌∷◌, ◌↔◌, [], length, slice_get, vec_len, vec_capacity, IsOk, IsTrue, OnOk, OnErr, IsErrOf, Some};
ghost use Rattle.write_history.specs.Trail.{message_of, TrailValue};
ghost use Rattle.write_history.specs.declared.trail.TheConstants.{MOST_MOVES};

use crate::move_item::Move;
use std::alloc::Global;
use std::error::Error;
use std::fmt;
use std::marker::Model;

/// How many moves a trail may have.
pub const MOST_MOVES: usize = 2_097_152;

/// Why a trail takes no further move. It stays as it was.
#[derive(Clone, Copy, Debug, PartialEq, Eq)]
pub enum TrailFault {
    /// It has `MOST_MOVES` moves. This is decided before memory is asked for.
    Full,
    OutOfMemory,
}

impl fmt::Display for TrailFault {
    ghost output = { λ fault. Some (message_of fault) };

    fn fmt<W: fmt::Write>(&self, f: &mut fmt::Formatter<W>) -> fmt::Result {
        f.write_str(match self {
            TrailFault::Full => "the trail is full",
            TrailFault::OutOfMemory => "out of memory",
        })
    }
}

impl Error for TrailFault {}

/// The moves of a run, in order. Contracts see them, and the trail's spare: for how many further moves it has room.
#[derive(Debug, Drop)]
pub struct Trail {
    moves: Vec<Move>,
}

impl Model for Trail {
    ghost Value = { TrailValue };

    ghost view = { λ t. record { moves = t.moves.items; spare = vec_capacity t.moves - vec_len t.moves } };

    ghost invariant = { λ t. vec_len t.moves ≤ MOST_MOVES };
}

impl Trail {
    /// A trail of no moves, which has taken no memory.
    pub fn new(alloc: Global) -> Trail
        ensures { result.moves ≡ [] }
    {
        Trail {
            moves: Vec::new(alloc),
        }
    }

    /// Appends a move.
    pub fn push(&mut self, item: Move) -> Result<(), TrailFault>
        ensures ok { OnOk result (self.new.moves ≡ self.old.moves ++ item ∷ []) }
        ensures err { OnErr result (self.new ≡ self.old) }
        ensures full { IsErrOf result TrailFault.Full ↔ (length self.old.moves ≡ MOST_MOVES) }
        ensures succeeds { length self.old.moves < MOST_MOVES → 1 ≤ self.old.spare → IsOk result }
        ensures spare { self.old.spare ≤ self.new.spare + 1 }
    {
        self.reserve()?;
        let _ = self.moves.push(item);
        Ok(())
    }

    /// Makes the spare at least 1.
    pub fn reserve(&mut self) -> Result<(), TrailFault>
        ensures moves { self.new.moves ≡ self.old.moves }
        ensures ok { OnOk result (1 ≤ self.new.spare) }
        ensures room { OnOk result (length self.new.moves < MOST_MOVES) }
        ensures err { OnErr result (self.new ≡ self.old) }
        ensures full { IsErrOf result TrailFault.Full ↔ (length self.old.moves ≡ MOST_MOVES) }
        ensures succeeds { length self.old.moves < MOST_MOVES → 1 ≤ self.old.spare → IsOk result }
        ensures spare { self.old.spare ≤ self.new.spare }
    {
        if self.moves.len() == MOST_MOVES {
            return Err(TrailFault::Full);
        }
        if self.moves.reserve(1).is_err() {
            return Err(TrailFault::OutOfMemory);
        }
        Ok(())
    }

    /// How many moves were made, 2,097,152 at most.
    pub fn len(&self) -> u32
        ensures len { result ≡ length self.now.moves }
        ensures most { result ≤ MOST_MOVES }
    {
        self.moves.len() as u32
    }

    /// Whether no move was made yet.
    pub fn is_empty(&self) -> bool
        ensures { IsTrue result ↔ (self.now.moves ≡ []) }
    {
        self.moves.is_empty()
    }

    /// Move `i`, counted from 0.
    pub fn get(&self, i: u32) -> Move
        requires { i < length self.now.moves }
        ensures { slice_get self.now.moves i ≡ Some result }
    {
        self.moves[i as usize]
    }

    /// The moves, in the order in which they were made.
    pub fn moves(&self) -> &[Move]
        ensures { result.now ≡ self.now.moves }
    {
        &self.moves
    }
}
