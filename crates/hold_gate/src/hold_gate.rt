ghost use Rattle.std.specs.Option.{ForSome};
ghost use Rattle.std.specs.Prelude.{◌≡◌, ◌<◌, true, false, length, slice_set, IfOk};

use crate::gate3::Gate3;
use std::alloc::Global;
use std::marker::Model;
use vss_names::OutOfMemory;

/// A flag for each volume, whether its writes are held, and for each writer, whether it stands frozen. No call
/// after `new` takes memory.
#[derive(Debug, Drop)]
pub struct HoldGate {
    held: Vec<bool>,
    frozen: Vec<bool>,
}

impl Model for HoldGate {
    ghost use Rattle.hold_gate.specs.Gate.{Flags};

    ghost Value = { Flags };

    ghost view = { λ g. record { held = g.held.items; frozen = g.frozen.items } };
}

impl HoldGate {
    ghost use Rattle.hold_gate.specs.Gate.{all_open, answer_to, is_frozen, is_held};

    /// A gate for so many volumes and writers, with nothing held and nobody frozen.
    pub fn new(alloc: Global, volumes: u32, writers: u32) -> Result<HoldGate, OutOfMemory>
        ensures { IfOk result (λ gate. gate ≡ all_open volumes writers) }
    {
        Ok(HoldGate {
            held: vec![in alloc; false; volumes as usize]?,
            frozen: vec![in alloc; false; writers as usize]?,
        })
    }

    /// Whether a write to this volume may go on, in the name of this writer where one is given.
    pub fn may_write(&self, volume: u32, writer: Option<u32>) -> Gate3
        requires volume { volume < length self.now.held }
        requires writer { ForSome writer (λ w. w < length self.now.frozen) }
        ensures { result ≡ answer_to self.now volume writer }
    {
        if self.is_held(volume) {
            return Gate3::Held;
        }
        match writer {
            Some(writer) if self.is_frozen(writer) => Gate3::Frozen,
            _ => Gate3::Open,
        }
    }

    /// Whether the volume's writes are held.
    pub fn is_held(&self, volume: u32) -> bool
        requires { volume < length self.now.held }
        ensures { result ≡ is_held self.now volume }
    {
        self.held[volume as usize]
    }

    /// Whether the writer stands frozen.
    pub fn is_frozen(&self, writer: u32) -> bool
        requires { writer < length self.now.frozen }
        ensures { result ≡ is_frozen self.now writer }
    {
        self.frozen[writer as usize]
    }

    /// Holds the volume's writes from now on.
    pub fn hold(&mut self, volume: u32)
        requires { volume < length self.old.held }
        ensures { self.new ≡ record self.old { held = slice_set self.old.held volume true } }
    {
        self.held[volume as usize] = true;
    }

    /// Lets the volume's writes go on.
    pub fn release(&mut self, volume: u32)
        requires { volume < length self.old.held }
        ensures { self.new ≡ record self.old { held = slice_set self.old.held volume false } }
    {
        self.held[volume as usize] = false;
    }

    /// Marks the writer as one that stands frozen.
    pub fn freeze(&mut self, writer: u32)
        requires { writer < length self.old.frozen }
        ensures { self.new ≡ record self.old { frozen = slice_set self.old.frozen writer true } }
    {
        self.frozen[writer as usize] = true;
    }

    /// Marks the writer as one that stands frozen no longer.
    pub fn thaw(&mut self, writer: u32)
        requires { writer < length self.old.frozen }
        ensures { self.new ≡ record self.old { frozen = slice_set self.old.frozen writer false } }
    {
        self.frozen[writer as usize] = false;
    }

    /// Releases all volumes and thaws all writers.
    pub fn clear(&mut self)
        ensures { self.new ≡ all_open (length self.old.held) (length self.old.frozen) }
    {
        self.held.fill(false);
        self.frozen.fill(false);
    }
}
