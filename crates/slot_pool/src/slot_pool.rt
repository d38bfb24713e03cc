ghost use Rattle.std.specs.Prelude.{◌≡◌, ◌+◌, ◌<◌, ◌≤◌, List, Bool, true, false, length, replicate, slice_set, IsTrue, IfOk, IfSome, IfNone, IsNone, ◌↔◌};
ghost use Rattle.slot_pool.specs.Slots.{IsTaken, IsLowestFree, free_count, IsFirst, AllTakenBelow, MayBeFree};

use std::alloc::Global;
use std::marker::Model;
use vss_names::OutOfMemory;

/// How many slots a run has.
const RUN: usize = 256;

/// The slots of a diff area, numbered from 0, and which of them are free. Contracts see a list with one truth value
/// for each slot: whether it is free.
///
/// The lowest free slot is known, so `lowest` and `give` look at one slot. `take` looks for the next one: at the slots of two runs at
/// most, and at one value for each run between them.
#[derive(Drop)]
pub struct SlotPool {
    is_free: Vec<bool>,
    /// For each run of slots, whether one of them may be free.
    runs: Vec<bool>,
    /// The lowest free slot; at least the number of slots where none is free.
    lowest: usize,
    /// How many slots are free.
    free: u32,
}

impl Model for SlotPool {
    ghost use Rattle.std.specs.Prelude.{List, Bool};
    ghost use Rattle.slot_pool.specs.Slots.{KeepsPool};

    ghost Value = { List Bool };

    ghost view = { λ pool. pool.is_free.items };

    ghost invariant = { λ pool. KeepsPool pool.is_free.items pool.runs.items pool.lowest pool.free };
}

impl SlotPool {
    /// A pool of `n` slots, all free. It takes all memory that the pool ever needs.
    pub fn new(alloc: Global, n: u32) -> Result<SlotPool, OutOfMemory>
        ensures { IfOk result (λ pool. pool ≡ replicate n true) }
    {
        Ok(SlotPool {
            is_free: vec![in alloc; true; n as usize]?,
            runs: vec![in alloc; true; n as usize / RUN + 1]?,
            lowest: 0,
            free: n,
        })
    }

    /// The lowest free slot.
    pub fn lowest(&self) -> Option<u32>
        ensures lowest { IfSome result (IsLowestFree self.now) }
        ensures none { IsNone result ↔ (free_count self.now ≡ 0) }
    {
        if self.free == 0 {
            return None;
        }
        Some(self.lowest as u32)
    }

    /// Takes the lowest free slot.
    pub fn take(&mut self) -> Option<u32>
        ensures lowest { IfSome result (IsLowestFree self.old) }
        ensures taken { IfSome result (λ slot. self.new ≡ slice_set self.old slot false) }
        ensures none { IsNone result ↔ (free_count self.old ≡ 0) }
        ensures unchanged { IfNone result (self.new ≡ self.old) }
    {
        if self.free == 0 {
            return None;
        }
        let slot = self.lowest;
        self.is_free[slot] = false;
        self.free -= 1;
        self.lowest = next_free(&self.is_free, &mut self.runs, slot);
        Some(slot as u32)
    }

    /// Frees a taken slot.
    pub fn give(&mut self, slot: u32)
        requires { IsTaken self.old slot }
        ensures { self.new ≡ slice_set self.old slot true }
    {
        let at = slot as usize;
        self.is_free[at] = true;
        self.runs[at / RUN] = true;
        self.lowest = self.lowest.min(at);
        self.free += 1;
    }

    /// Whether a slot has a copy.
    pub fn is_taken(&self, slot: u32) -> bool
        requires { slot < length self.now }
        ensures { IsTrue result ↔ IsTaken self.now slot }
    {
        !self.is_free[slot as usize]
    }

    /// How many slots are free.
    pub fn free(&self) -> u32
        ensures { result ≡ free_count self.now }
    {
        self.free
    }

    /// How many slots are taken.
    pub fn used(&self) -> u32
        ensures { result + free_count self.now ≡ length self.now }
    {
        self.slots() - self.free
    }

    /// How many slots there are.
    pub fn slots(&self) -> u32
        ensures { result ≡ length self.now }
    {
        self.is_free.len() as u32
    }
}

/// A place after that of a taken slot, below which all are taken too. A run that is left is noted as taken.
fn place_after(is_free: &[bool], runs: &mut Vec<bool>, at: usize) -> usize
    requires inside { at < length is_free.now }
    requires taken { AllTakenBelow is_free.now (at + 1) }
    requires runs { MayBeFree is_free.now runs.old.items }
    ensures taken { AllTakenBelow is_free.now result }
    ensures runs { MayBeFree is_free.now runs.new.items }
    ensures further { at < result }
{
    if at % RUN == 0 && !runs[at / RUN] {
        return is_free.len().min(at + RUN);
    }
    if at % RUN == RUN - 1 {
        runs[at / RUN] = false;
    }
    at + 1
}

/// The first free slot from `from` on, below which all are taken. The runs that it leaves are noted as taken.
fn next_free(is_free: &[bool], runs: &mut Vec<bool>, from: usize) -> usize
    requires taken { AllTakenBelow is_free.now from }
    requires runs { MayBeFree is_free.now runs.old.items }
    ensures first { IsFirst is_free.now result }
    ensures runs { MayBeFree is_free.now runs.new.items }
{
    let mut at = from;
    'places: while at < is_free.len() && !is_free[at] {
        at = place_after(is_free, runs, at);
    }
    at
}
