//! The ordered list of the used slots of an overlay: what is found in it, and which slots are given back.

ghost use Rattle.std.specs.Prelude.{◌≡◌, ◌≤◌, ◌<◌, ◌==◌, ◌&&◌, ◌^◌, [], ◌∷◌, true, false, length, map, count_by, slice_get, vec_capacity, OnOk, IfErr};
ghost use Rattle.std.specs.List.{AllWithin};
ghost use Rattle.diff_area.specs.Format.{AreRecords, is_free};
ghost use Rattle.diff_map.specs.Links.{IsInOrder, IsIndex, place, place_of};
ghost use Rattle.cow_volume.specs.Calls.{is_among, sets_in};
ghost use Rattle.cow_volume.specs.CopiesAfter.{with_records};
ghost use Rattle.cow_volume.specs.Resuming.{AllHaveImages, HasImage};
ghost use Rattle.cow_volume.specs.Parts.{copied_for};
ghost use Rattle.vss_recover.specs.OverlayCalls.{IsNotedIn, kept_records};
ghost use Rattle.vss_recover.specs.Syncing.{IsRefused};

use cow_volume::ResumeFault;
use diff_area::{Area, Record};
use diff_map::Entry;
use slot_pool::SlotPool;
use volume_device::Device;

/// The place of the first entry of this block from this set on, or of the one that would follow it. A binary search.
pub(crate) fn place_from(entries: &[Entry], block: u32, set: u32) -> usize
    requires { IsInOrder entries.now }
    ensures within { result ≤ length entries.now }
    ensures before { AllWithin (λ e. place e < place_of block set) entries.now 0 result }
    ensures onward { AllWithin (λ e. place_of block set ≤ place e) entries.now result (length entries.now) }
{
    entries.partition_point(|entry| entry.is_before(block, set))
}

/// Whether the entry is that of this block of the image of this set.
pub(crate) fn is_at(entry: Entry, block: u32, set: u32) -> bool
    ensures { result ≡ ((entry.block == block) && (entry.set == set)) }
{
    entry.block == block && entry.set == set
}

/// Notes the slots of the records of an area that are not free, where no slot is noted yet.
pub(crate) fn note_used<D: Device>(entries: &mut Vec<Entry>, area: &Area<D>)
    requires one { length area.now.volumes ≡ 1 }
    requires none { entries.old.items ≡ [] }
    requires room { length area.now.records ≤ vec_capacity entries.old }
    ensures index { IsIndex entries.new.items (map (copied_for 0) area.now.records) }
    ensures room { length area.now.records ≤ vec_capacity entries.new }
{
    for slot in 0..area.slots() {
        note_if_used(entries, slot, area.record_at(slot));
    }
}

/// Notes a slot for its record, where that is not free.
fn note_if_used(entries: &mut Vec<Entry>, slot: u32, row: Record)
    requires order { IsInOrder entries.old.items }
    requires room { length entries.old.items < vec_capacity entries.old }
    ensures free { is_free row ≡ true → entries.new.items ≡ entries.old.items }
    ensures noted { is_free row ≡ false → IsNotedIn entries.old.items entries.new.items slot row }
    ensures room { vec_capacity entries.old ≤ vec_capacity entries.new }
{
    if row.is_free() {
        return;
    }
    let Record { set, block, .. } = row;
    let at = place_from(entries, block, set);
    let _ = entries.insert(at, Entry { block, set, slot });
}

/// Whether a record of an area of one volume is not free and lacks its image.
fn lacks_image(images: &[u32], row: Record) -> bool
    requires { is_free row ≡ false → row.volume ≡ 0 }
    ensures lacks { result ≡ true → (is_free row ≡ false)
        × (is_among row.set (sets_in (slice_get (images.now ∷ []) row.volume)) ≡ false) }
    ensures has { result ≡ false → HasImage (images.now ∷ []) row }
{
    if row.is_free() {
        return false;
    }
    !images.contains(&row.set)
}

/// Looks whether each record of an area of one volume is free or of one of these images.
pub(crate) fn look_for_images<D: Device>(area: &Area<D>, images: &[u32]) -> Result<(), ResumeFault>
    requires { length area.now.volumes ≡ 1 }
    ensures all { OnOk result (AllHaveImages area.now.records (images.now ∷ [])) }
    ensures refused { IfErr result (IsRefused area.now.records (images.now ∷ [])) }
{
    for slot in 0..area.slots() {
        let row = area.record_at(slot);
        if lacks_image(images, row) {
            let set = row.set;
            return Err(ResumeFault::NoImage { slot, set });
        }
    }
    Ok(())
}

/// How many entries are of the image of a set.
pub(crate) fn entries_of(entries: &[Entry], set: u32) -> u32
    requires { count_by (λ e. e.set == set) entries.now < 2 ^ 32 }
    ensures { result ≡ count_by (λ e. e.set == set) entries.now }
{
    let mut used = 0;
    for entry in entries {
        if entry.set == set {
            used += 1;
        }
    }
    used
}

/// Frees the slots of the images that are not among these. `entries` are all used slots, and stay as they are.
pub(crate) fn free_gone<D: Device>(
    area: &mut Area<D>,
    pool: &mut SlotPool,
    entries: &[Entry],
    images: &[u32],
)
    requires one { length area.old.volumes ≡ 1 }
    requires records { AreRecords area.old.volumes area.old.records }
    requires index { IsIndex entries.now (map (copied_for 0) area.old.records) }
    requires pool { pool.old ≡ map is_free area.old.records }
    ensures area { area.new ≡ with_records (kept_records images.now area.old.records) area.old }
    ensures pool { pool.new ≡ map is_free area.new.records }
{
    for entry in entries {
        if !images.contains(&entry.set) {
            area.clear_record(entry.slot);
            pool.give(entry.slot);
        }
    }
}
