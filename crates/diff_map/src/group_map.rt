//! The maps of the volumes of a group, in one arena: one row for each slot, whichever volume it is noted for.

ghost use Rattle.std.specs.Prelude.{◌≡◌, ◌<◌, ◌≤◌, ◌++◌, ◌∷◌, [], Some, None, length, slice_set, slice_index, filter, not, ◌==◌, nat_le, nat_lt, map, All, Contains, IsTrue, IfOk, IfSome, IsNone, ◌↔◌, ℕ, ◌≢◌, ◌-◌};
ghost use Rattle.diff_map.specs.Copies.{IsFound, IsAbsent, HasCopy, copied_at, copy_of, noted_in, IsMap, newest};
ghost use Rattle.diff_map.specs.Counts.{IsOldestUsed, IsPopped, used_for};
ghost use Rattle.diff_map.specs.Groups.{IsGivenDown, IsHandedDown, IsOnlyAt, IsUnnoted, map_at, new_map, with_images, with_row};

use crate::copied::Copied;
use crate::counts::{drop_first, first_used, place_after, place_from};
use crate::entry::Entry;
use crate::handed_down::HandedDown;
use crate::image_count::ImageCount;
use crate::links::Links;
use crate::of_volume::OfVolume;
use std::alloc::Global;
use std::marker::Model;
use vss_names::OutOfMemory;

/// For each volume of a group its images, and which slot of their diff area holds which old block of which image. A slot is noted for
/// one volume at most, so all volumes share one row for each slot.
#[derive(Drop)]
pub struct GroupMap {
    /// The copies of all volumes, by blocks that are counted through all of them.
    links: Links,
    /// For each noted slot, the next one of its image.
    next: Vec<u32>,
    volumes: Vec<OfVolume>,
}

impl Model for GroupMap {
    ghost use Rattle.std.specs.Prelude.{List, map};
    ghost use Rattle.diff_map.specs.Copies.{MapValue};
    ghost use Rattle.diff_map.specs.Groups.{KeepsGroup, map_of};

    ghost Value = { List MapValue };

    ghost view = { λ g. map (map_of g.links.copies) g.volumes.items };

    ghost invariant = { λ g. KeepsGroup g.links.blocks g.volumes.items g.next.items g.links.copies };
}

impl GroupMap {
    /// Maps without images for volumes of so many blocks each, over a diff area of `slots` slots. It takes all memory that the maps
    /// ever need.
    pub fn new(alloc: Global, blocks: &[u32], slots: u32) -> Result<GroupMap, OutOfMemory>
        ensures { IfOk result (λ maps. maps ≡ map (new_map slots) blocks.now) }
    {
        let mut volumes = Vec::with_capacity(alloc, blocks.len())?;
        let mut base: u32 = 0;
        for count in blocks {
            let volume = OfVolume::new(alloc, base, *count)?;
            volumes.push(volume)?;
            let Some(after) = base.checked_add(*count) else {
                return Err(OutOfMemory);
            };
            base = after;
        }
        Ok(GroupMap {
            links: Links::new(alloc, base, slots)?,
            next: vec![in alloc; 0; slots as usize]?,
            volumes,
        })
    }

    /// How many blocks the volume has.
    pub fn blocks(&self, v: u32) -> u32
        requires { v < length self.now }
        ensures { result ≡ (map_at self.now v).blocks }
    {
        self.volumes[v as usize].blocks
    }

    /// The sets of the images of the volume, oldest first.
    pub fn images(&self, v: u32) -> &[u32]
        requires { v < length self.now }
        ensures images { result.now ≡ (map_at self.now v).images }
        ensures valid { IsMap (map_at self.now v) }
    {
        let _facts = self.links.slots();
        &self.volumes[v as usize].images
    }

    /// For what the slot is noted, if it is for this volume.
    pub fn held_by(&self, v: u32, slot: u32) -> Option<Copied>
        requires volume { v < length self.now }
        requires slot { slot < length (map_at self.now v).copies }
        ensures { result ≡ copied_at (map_at self.now v).copies slot }
    {
        let volume = &self.volumes[v as usize];
        match self.links.held_by(slot) {
            Some(copied) => volume.own(copied),
            None => None,
        }
    }

    /// The slot that shows what the image of `set` holds at this block of the volume: that of the first image, from the asked one to
    /// the newest, that has the block.
    pub fn find(&self, v: u32, set: u32, block: u32) -> Option<u32>
        requires { v < length self.now }
        ensures found { IfSome result (IsFound (map_at self.now v).copies set block) }
        ensures none { IsNone result ↔ IsAbsent (map_at self.now v).copies set block }
    {
        let volume = &self.volumes[v as usize];
        if block >= volume.blocks {
            return None;
        }
        self.links.find(set, volume.base + block)
    }

    /// Whether the image of `set` has a copy of this block of the volume.
    pub fn has(&self, v: u32, set: u32, block: u32) -> bool
        requires { v < length self.now }
        ensures { IsTrue result ↔ HasCopy (map_at self.now v).copies set block }
    {
        let volume = &self.volumes[v as usize];
        if block >= volume.blocks {
            return false;
        }
        self.links.has(set, volume.base + block)
    }

    /// How many slots are noted for the volume.
    pub fn used(&self, v: u32) -> u32
        requires { v < length self.now }
        ensures { result ≡ noted_in (map_at self.now v).copies }
    {
        self.volumes[v as usize].used
    }

    /// How many slots hold copies for the volume's image of `set`.
    pub fn used_by(&self, v: u32, set: u32) -> u32
        requires volume { v < length self.now }
        requires image { Contains (map_at self.now v).images set }
        ensures { result ≡ used_for (map_at self.now v).copies set }
    {
        let volume = &self.volumes[v as usize];
        let at = place_from(&volume.images, set);
        volume.counts[at].used
    }

    /// The oldest image of the volume that has a copy. It goes through the images before that alone.
    pub fn oldest_used(&self, v: u32) -> Option<u32>
        requires { v < length self.now }
        ensures found { IfSome result (IsOldestUsed (map_at self.now v).copies) }
        ensures none { IsNone result → (slot : ℕ) → copied_at (map_at self.now v).copies slot ≡ None }
    {
        first_used(&self.volumes[v as usize].counts)
    }

    /// Whether the newest image of the volume has a copy of this block.
    pub fn newest_has(&self, v: u32, block: u32) -> bool
        requires { v < length self.now }
        ensures { IsTrue result ↔ HasCopy (map_at self.now v).copies (newest (map_at self.now v).images) block }
    {
        match self.images(v).last() {
            Some(&set) => self.has(v, set, block),
            None => false,
        }
    }

    /// Adds an image of the volume, its newest, without copies.
    pub fn add_image(&mut self, v: u32, set: u32)
        requires volume { v < length self.old }
        requires room { length (map_at self.old v).images < 512 }
        requires above_zero { 0 < set }
        requires newest { All (λ image. image < set) (map_at self.old v).images }
        ensures { self.new ≡ slice_set self.old v (with_images ((map_at self.old v).images ++ set ∷ []) (map_at self.old v)) }
    {
        let volume = &mut self.volumes[v as usize];
        let _ = volume.images.push(set);
        let _ = volume.counts.push(ImageCount {
            set,
            used: 0,
            first: 0,
        });
    }

    /// Notes the slot for this block of the newest image of the volume.
    pub fn note(&mut self, v: u32, block: u32, slot: u32)
        requires volume { v < length self.old }
        requires image { 0 < length (map_at self.old v).images }
        requires in_range { block < (map_at self.old v).blocks }
        requires lacks { HasCopy (map_at self.old v).copies (newest (map_at self.old v).images) block → ⊥ }
        requires unnoted { IsUnnoted self.old slot }
        ensures { self.new ≡ slice_set self.old v (with_row slot (Some (copy_of (newest (map_at self.old v).images) block)) (map_at self.old v)) }
    {
        let images = self.images(v);
        let set = images[images.len() - 1];
        self.note_for(v, set, block, slot);
    }

    /// Notes the slot for this block of the volume's image of `set`.
    pub fn note_for(&mut self, v: u32, set: u32, block: u32, slot: u32)
        requires volume { v < length self.old }
        requires image { Contains (map_at self.old v).images set }
        requires in_range { block < (map_at self.old v).blocks }
        requires lacks { HasCopy (map_at self.old v).copies set block → ⊥ }
        requires unnoted { IsUnnoted self.old slot }
        ensures { self.new ≡ slice_set self.old v (with_row slot (Some (copy_of set block)) (map_at self.old v)) }
    {
        let _facts = self.links.slots();
        let volume = &mut self.volumes[v as usize];
        let at = place_from(&volume.images, set);
        let count = volume.counts[at];
        self.links.note(set, volume.base + block, slot);
        self.next[slot as usize] = count.first;
        volume.counts[at] = ImageCount {
            set,
            used: count.used + 1,
            first: slot,
        };
        volume.used += 1;
    }

    /// Takes a copy of the image at a place among the images of the volume out, and answers what it was. Its slot is not given back.
    pub fn pop_at(&mut self, v: u32, at: usize) -> Option<Entry>
        requires volume { v < length self.old }
        requires image { at < length (map_at self.old v).images }
        ensures others { IsOnlyAt v self.old self.new }
        ensures some { IfSome result (IsPopped (map_at self.old v) (map_at self.new v) (slice_index (map_at self.old v).images at)) }
        ensures none { IsNone result → (self.new ≡ self.old) × (used_for (map_at self.old v).copies (slice_index (map_at self.old v).images at) ≡ 0) }
    {
        let volume = &mut self.volumes[v as usize];
        let count = volume.counts[at];
        if count.used == 0 {
            return None;
        }
        let slot = count.first;
        let block = self.links.take_out(slot) - volume.base;
        volume.counts[at] = ImageCount {
            set: count.set,
            used: count.used - 1,
            first: self.next[slot as usize],
        };
        volume.used -= 1;
        Some(Entry {
            block,
            set: count.set,
            slot,
        })
    }

    /// Hands a copy of the image at a place among the images of the volume down to the next older image, where that lacks the block.
    /// Where it does not, the copy goes, and its slot is not given back.
    pub fn hand_down(&mut self, v: u32, at: usize) -> Option<HandedDown>
        requires volume { v < length self.old }
        requires image { at < length (map_at self.old v).images }
        requires older { 0 < at }
        ensures others { IsOnlyAt v self.old self.new }
        ensures some { IfSome result (IsHandedDown (map_at self.old v) (map_at self.new v) (slice_index (map_at self.old v).images (at - 1)) (slice_index (map_at self.old v).images at)) }
        ensures none { IsNone result → (self.new ≡ self.old) × (used_for (map_at self.old v).copies (slice_index (map_at self.old v).images at) ≡ 0) }
    {
        let volume = &self.volumes[v as usize];
        let older = volume.images[at - 1];
        if let Some(entry) = self.lower(v, at) {
            return Some(HandedDown { entry, kept: true });
        }
        let Some(entry) = self.pop_at(v, at) else {
            return None;
        };
        let kept = !self.has(v, older, entry.block);
        if kept {
            self.note_for(v, older, entry.block, entry.slot);
        }
        Some(HandedDown { entry, kept })
    }

    /// Hands the first copy of the image at a place down to the next older image in one step, where that lacks the block. It may
    /// leave that undone.
    fn lower(&mut self, v: u32, at: usize) -> Option<Entry>
        requires volume { v < length self.old }
        requires image { at < length (map_at self.old v).images }
        requires older { 0 < at }
        ensures others { IsOnlyAt v self.old self.new }
        ensures some { IfSome result (IsGivenDown (map_at self.old v) (map_at self.new v) (slice_index (map_at self.old v).images (at - 1)) (slice_index (map_at self.old v).images at)) }
        ensures none { IsNone result → self.new ≡ self.old }
    {
        let _facts = self.links.slots();
        let volume = &mut self.volumes[v as usize];
        let count = volume.counts[at];
        if count.used == 0 {
            return None;
        }
        let slot = count.first;
        let set = volume.images[at - 1];
        let Some(block) = self.links.lower(slot, set) else {
            return None;
        };
        let rest = self.next[slot as usize];
        volume.counts[at] = ImageCount {
            set: count.set,
            used: count.used - 1,
            first: rest,
        };
        let older = volume.counts[at - 1];
        self.next[slot as usize] = older.first;
        volume.counts[at - 1] = ImageCount {
            set,
            used: older.used + 1,
            first: slot,
        };
        Some(Entry {
            block: block - volume.base,
            set: count.set,
            slot,
        })
    }

    /// Takes the volume's image of `set` out, which has no copy.
    pub fn forget(&mut self, v: u32, set: u32)
        requires volume { v < length self.old }
        requires image { Contains (map_at self.old v).images set }
        requires none { (slot : ℕ) (copied : Copied) → copied_at (map_at self.old v).copies slot ≡ Some copied → copied.set ≢ set }
        ensures { self.new ≡ slice_set self.old v (with_images (filter (λ image. not (image == set)) (map_at self.old v).images) (map_at self.old v)) }
    {
        let volume = &mut self.volumes[v as usize];
        let at = place_from(&volume.images, set);
        let _image = volume.images.remove(at);
        let _count = volume.counts.remove(at);
    }

    /// Takes each image of the volume up to `set` out. None of them has a copy.
    pub fn forget_up_to(&mut self, v: u32, set: u32)
        requires volume { v < length self.old }
        requires none { (slot : ℕ) (copied : Copied) → copied_at (map_at self.old v).copies slot ≡ Some copied → set < copied.set }
        ensures { self.new ≡ slice_set self.old v (with_images (filter (λ image. nat_lt set image) (map_at self.old v).images) (map_at self.old v)) }
    {
        let volume = &mut self.volumes[v as usize];
        let gone = place_after(&volume.images, set);
        drop_first(&mut volume.images, gone);
        drop_first(&mut volume.counts, gone);
    }

    /// Takes each image of the volume newer than `set` out. None of them has a copy.
    pub fn forget_newer(&mut self, v: u32, set: u32)
        requires volume { v < length self.old }
        requires none { (slot : ℕ) (copied : Copied) → copied_at (map_at self.old v).copies slot ≡ Some copied → copied.set ≤ set }
        ensures { self.new ≡ slice_set self.old v (with_images (filter (λ image. nat_le image set) (map_at self.old v).images) (map_at self.old v)) }
    {
        let volume = &mut self.volumes[v as usize];
        let left = place_after(&volume.images, set);
        volume.images.truncate(left);
        volume.counts.truncate(left);
    }
}
