//! The copies of a volume, where some of them go or are handed down to an older image: its map, the area's records and the pool.

ghost use Rattle.std.specs.Prelude.{◌≡◌, ◌<◌, ◌-◌, Contains, Some, length, map, slice_get, slice_index};
ghost use Rattle.std.specs.List.{AllWithin};
ghost use Rattle.diff_map.specs.Copies.{AllTaken};
ghost use Rattle.diff_map.specs.Counts.{used_for};
ghost use Rattle.diff_map.specs.Groups.{IsOnlyAt, map_at, with_copies};
ghost use Rattle.diff_map.specs.Rules.{rule_of, renewed, merged, next_older, GivesBack};
ghost use Rattle.cow_volume.specs.CopiesAfter.{with_records};
ghost use Rattle.cow_volume.specs.Changes.{followed};
ghost use Rattle.cow_volume.specs.Parts.{copied_for};

use diff_area::{Area, Record};
use diff_map::{Going, GroupMap, place_from};
use slot_pool::SlotPool;
use volume_device::Device;

/// The place of the first image of volume `v` that has a copy, or of the one that would follow them.
fn first_with_copies(maps: &GroupMap, v: u32) -> usize
    requires { v < length maps.now }
    ensures { AllWithin (λ image. used_for (map_at maps.now v).copies image ≡ 0) (map_at maps.now v).images 0 result }
{
    match maps.oldest_used(v) {
        Some(set) => place_from(maps.images(v), set),
        None => maps.images(v).len(),
    }
}

/// Frees those copies of volume `v` that go. Their images stay.
pub(crate) fn free_copies<D: Device>(
    area: &mut Area<D>,
    maps: &mut GroupMap,
    pool: &mut SlotPool,
    v: u32,
    going: Going,
)
    requires volume { v < length maps.old }
    requires tied { (map_at maps.old v).copies ≡ map (copied_for v) area.old.records }
    requires taken { AllTaken (map_at maps.old v).copies pool.old }
    ensures others { IsOnlyAt v maps.old maps.new }
    ensures map { map_at maps.new v ≡ with_copies (renewed (rule_of going) (map_at maps.old v).copies) (map_at maps.old v) }
    ensures slots { GivesBack (map_at maps.old v).copies (map_at maps.new v).copies pool.old pool.new }
    ensures area { area.new ≡ with_records (followed v (map_at maps.new v).copies area.old.records) area.old }
{
    let (from, to) = going.places(maps.images(v));
    let some = first_with_copies(maps, v);
    for i in from.max(some)..to {
        let image = maps.images(v)[i];
        if going.takes(image) {
            'copies: while let Some(entry) = maps.pop_at(v, i) {
                area.clear_record(entry.slot);
                pool.give(entry.slot);
            }
        }
    }
}

/// Gives the copies of the image at a place among those of volume `v` to the older one where it lacks the block, and frees the others.
fn hand_down<D: Device>(
    area: &mut Area<D>,
    maps: &mut GroupMap,
    pool: &mut SlotPool,
    v: u32,
    at: usize,
)
    requires inside { v < length maps.old }
    requires tied { (map_at maps.old v).copies ≡ map (copied_for v) area.old.records }
    requires taken { AllTaken (map_at maps.old v).copies pool.old }
    requires volume { slice_get area.old.volumes v ≡ Some (map_at maps.old v).blocks }
    requires image { at < length (map_at maps.old v).images }
    requires older { 0 < at }
    ensures others { IsOnlyAt v maps.old maps.new }
    ensures map { map_at maps.new v ≡ with_copies (renewed (merged (map_at maps.old v).copies (Some (slice_index (map_at maps.old v).images (at - 1))) (slice_index (map_at maps.old v).images at)) (map_at maps.old v).copies) (map_at maps.old v) }
    ensures slots { GivesBack (map_at maps.old v).copies (map_at maps.new v).copies pool.old pool.new }
    ensures area { area.new ≡ with_records (followed v (map_at maps.new v).copies area.old.records) area.old }
{
    let older = maps.images(v)[at - 1];
    'copies: while let Some(handed) = maps.hand_down(v, at) {
        let (slot, block) = (handed.entry.slot, handed.entry.block);
        if handed.kept {
            let row = Record {
                set: older,
                block,
                volume: v,
            };
            area.set_record(slot, row);
        } else {
            area.clear_record(slot);
            pool.give(slot);
        }
    }
}

/// Hands the copies of volume `v`'s image of `set` down to the next older image, or frees them all where none is older.
pub(crate) fn merge_copies<D: Device>(
    area: &mut Area<D>,
    maps: &mut GroupMap,
    pool: &mut SlotPool,
    v: u32,
    set: u32,
)
    requires inside { v < length maps.old }
    requires tied { (map_at maps.old v).copies ≡ map (copied_for v) area.old.records }
    requires taken { AllTaken (map_at maps.old v).copies pool.old }
    requires volume { slice_get area.old.volumes v ≡ Some (map_at maps.old v).blocks }
    requires image { Contains (map_at maps.old v).images set }
    ensures others { IsOnlyAt v maps.old maps.new }
    ensures map { map_at maps.new v ≡ with_copies (renewed (merged (map_at maps.old v).copies (next_older (map_at maps.old v).images set) set) (map_at maps.old v).copies) (map_at maps.old v) }
    ensures slots { GivesBack (map_at maps.old v).copies (map_at maps.new v).copies pool.old pool.new }
    ensures area { area.new ≡ with_records (followed v (map_at maps.new v).copies area.old.records) area.old }
{
    let at = place_from(maps.images(v), set);
    if at == 0 {
        free_copies(area, maps, pool, v, Going::Image(set));
        return;
    }
    hand_down(area, maps, pool, v, at);
}
