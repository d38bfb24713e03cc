ghost use Rattle.std.specs.Prelude.{◌≡◌, ◌<◌, ◌≤◌, ◌+◌, ◌-◌, ◌++◌, [], ◌∷◌, None, length, slice_get, All, IfOk, IfSome, IsTrue, OnOk, OnErr, false};
ghost use Rattle.vss_shards.specs.Journals.{count_of, most_entries, most_volumes, IsEnteredIn, IsJournal, appended, first_off, journal_value, most_cuts, with_places};
ghost use Rattle.vss_shards.specs.Shards.{AreParts};
ghost use Rattle.vss_shards.specs.Calls.{IsRecorded};

use crate::draft::Draft;
use crate::entry::Entry;
use crate::part::Part;
use crate::record_fault::RecordFault;
use crate::recorded_cut::RecordedCut;
use crate::shard::MOST_ENTRIES;
use std::alloc::Global;
use std::marker::Model;
use vss_names::{MOST_VOLUMES, OutOfMemory};

/// How many cuts a journal may have.
const MOST_CUTS: usize = 65_536;

/// All entries of several volumes in one order, and the recorded cuts. Contracts see both, and how many places are taken for entries
/// that are being written; a cut has the number of entries that the journal had, and its parts.
#[derive(Drop)]
pub struct Journal {
    /// For how many more entries there is room that is promised.
    places: u32,
    pub(crate) entries: Vec<Entry>,
    /// How many entries each volume has.
    counts: Vec<u32>,
    cuts: Vec<RecordedCut>,
}

impl Model for Journal {
    ghost use Rattle.std.specs.Prelude.{◌≤◌, ◌+◌, vec_len, vec_capacity};
    ghost use Rattle.vss_shards.specs.Journals.{JournalValue, IsJournal, AreCounts, journal_value};

    ghost Value = { JournalValue };

    ghost view = { λ j. journal_value j.entries.items j.cuts.items j.places };

    ghost invariant = { λ j. IsJournal (journal_value j.entries.items j.cuts.items j.places) × AreCounts j.counts.items j.entries.items × (vec_len j.entries + j.places ≤ vec_capacity j.entries) };
}

impl Journal {
    /// A journal of no entries and no cuts.
    pub(crate) fn new(alloc: Global) -> Result<Journal, OutOfMemory>
        ensures { IfOk result (λ journal. journal ≡ journal_value [] [] 0) }
    {
        let counts = vec![in alloc; 0u32; MOST_VOLUMES as usize]?;
        Ok(Journal {
            places: 0,
            entries: Vec::new(alloc),
            counts,
            cuts: Vec::new(alloc),
        })
    }

    /// Whether there is no place for one more entry.
    pub(crate) fn is_full(&self) -> bool
        ensures full { IsTrue result → length self.now.entries + self.now.places ≡ most_entries }
        ensures free { result ≡ false → length self.now.entries + self.now.places < most_entries }
    {
        self.entries.len() + self.places as usize >= MOST_ENTRIES
    }

    /// Takes a place for one more entry.
    pub(crate) fn reserve(&mut self) -> Result<(), OutOfMemory>
        requires { length self.old.entries + self.old.places < most_entries }
        ensures taken { OnOk result (self.new ≡ with_places (self.old.places + 1) self.old) }
        ensures refused { OnErr result (self.new ≡ self.old) }
    {
        self.entries.reserve(self.places as usize + 1)?;
        self.places += 1;
        Ok(())
    }

    /// Takes a place for one more entry, if it is not full and there is memory. Answers whether it did.
    pub(crate) fn try_reserve(&mut self) -> bool
        ensures place { IsTrue result → 0 < self.new.places }
        ensures kept { self.new ≡ with_places self.new.places self.old }
    {
        !self.is_full() && self.reserve().is_ok()
    }

    /// Gives a place back.
    pub(crate) fn release(&mut self)
        requires { 0 < self.old.places }
        ensures { self.new ≡ with_places (self.old.places - 1) self.old }
    {
        self.places -= 1;
    }

    /// Gives all places back.
    pub(crate) fn release_all(&mut self)
        ensures { self.new ≡ with_places 0 self.old }
    {
        self.places = 0;
    }

    /// Whether there is a place for an entry: one that was taken, or a new one.
    fn has_place(&mut self) -> bool
        ensures place { IsTrue result → 0 < self.new.places }
        ensures kept { self.new ≡ with_places self.new.places self.old }
    {
        if self.places > 0 {
            return true;
        }
        self.try_reserve()
    }

    /// Puts an entry into a place that was taken, or into a new one, and answers how many entries there are then; none if there is no
    /// place.
    pub(crate) fn enter(&mut self, entry: Entry) -> Option<u32>
        requires { entry.volume < most_volumes }
        ensures { IfSome result (IsEnteredIn self.old self.new entry) }
    {
        if self.has_place() {
            return Some(self.append(entry));
        }
        None
    }

    /// Puts an entry into a place, and answers how many entries there are then.
    pub(crate) fn append(&mut self, entry: Entry) -> u32
        requires place { 0 < self.old.places }
        requires volume { entry.volume < most_volumes }
        ensures entry { self.new ≡ appended entry (with_places (self.old.places - 1) self.old) }
        ensures count { result ≡ length self.old.entries + 1 }
        ensures few { result ≤ most_entries }
    {
        self.entries.push_reserved(entry);
        self.counts[entry.volume as usize] += 1;
        self.places -= 1;
        self.entries.len() as u32
    }

    /// The cut: each part has to have the journal's number of entries of its volume, and then the parts are stored under the next
    /// number, from 1.
    pub fn record_cut(&mut self, draft: &mut Draft) -> Result<u32, RecordFault>
        requires { draft.old.recorded ≡ None }
        ensures record { IsRecorded self.old self.new draft.old draft.new result }
        ensures counts { OnOk result (All (λ p. p.count ≡ count_of self.old.entries p.volume) draft.old.parts) }
    {
        if self.cuts.len() >= MOST_CUTS {
            return Err(RecordFault::Full);
        }
        if let Some(fault) = differing(self, &draft.parts) {
            return Err(fault);
        }
        let Ok(number) = store(self, &draft.parts) else {
            return Err(RecordFault::OutOfMemory);
        };
        draft.recorded = Some(number);
        Ok(number)
    }

    /// How many cuts were recorded.
    pub fn cuts(&self) -> u32
        ensures cuts { result ≡ length self.now.cuts }
        ensures kept { IsJournal self.now }
    {
        self.cuts.len() as u32
    }

    /// The parts that were stored for a cut.
    pub fn cut(&self, number: u32) -> &[Part]
        requires from { 1 ≤ number }
        requires up_to { number ≤ length self.now.cuts }
        ensures { IfSome (slice_get self.now.cuts (number - 1)) (λ cut. result.now ≡ cut.parts) }
    {
        let cut = &self.cuts[number as usize - 1];
        &cut.parts
    }

    /// How many entries of a volume there are.
    fn count(&self, volume: u32) -> u32
        requires { volume < most_volumes }
        ensures { result ≡ count_of self.now.entries volume }
    {
        self.counts[volume as usize]
    }
}

/// The first part whose count is not the journal's number of entries of its volume.
fn differing(journal: &Journal, parts: &[Part]) -> Option<RecordFault>
    requires { AreParts parts.now }
    ensures { result ≡ first_off journal.now.entries parts.now }
{
    for part in parts {
        let journalled = journal.count(part.volume);
        if part.count != journalled {
            return Some(RecordFault::Differs {
                volume: part.volume,
                listed: part.count,
                journalled,
            });
        }
    }
    None
}

/// Stores a cut of these parts under the next number, which it answers.
fn store(journal: &mut Journal, parts: &Vec<Part>) -> Result<u32, OutOfMemory>
    requires room { length journal.old.cuts < most_cuts }
    requires counts { first_off journal.old.entries parts.now.items ≡ None }
    ensures number { IfOk result (λ number. number ≡ length journal.old.cuts + 1) }
    ensures stored { OnOk result (journal.new ≡ journal_value journal.old.entries (journal.old.cuts ++ record { at = length journal.old.entries; parts = parts.now.items } ∷ []) journal.old.places) }
    ensures refused { OnErr result (journal.new ≡ journal.old) }
{
    let parts = copied(parts)?;
    let at = journal.entries.len() as u32;
    journal.cuts.push(RecordedCut { at, parts })?;
    Ok(journal.cuts.len() as u32)
}

/// A copy of a list of parts.
fn copied(parts: &Vec<Part>) -> Result<Vec<Part>, OutOfMemory>
    ensures { IfOk result (λ copy. copy.items ≡ parts.now.items) }
{
    let mut copy = Vec::new(*parts.allocator());
    copy.extend_from_slice(parts)?;
    Ok(copy)
}
