ghost use Rattle.std.specs.Prelude.{ℕ, ◌≡◌, ◌≢◌, ◌<◌, ◌≤◌, ◌++◌, ◌∷◌, [], List, Option, Some, None, length, replicate, slice_get, slice_set, slice_index, filter, not, ◌==◌, nat_le, nat_lt, map, drop, All, Contains, IsTrue, IfOk, IfSome, IsNone, ◌↔◌};
ghost use Rattle.diff_map.specs.Copies.{AreImages, IsMap, newest, HasCopy, AllTaken, copied_at, copy_of, noted_in, IsFound, IsAbsent, KeepsFinds};
ghost use Rattle.diff_map.specs.Counts.{IsOldestUsed, IsPopped, used_for};
ghost use Rattle.diff_map.specs.Rules.{rule_of, renewed, dropped, cleared, gone, merged, next_older, GivesBack};

use crate::copied::Copied;
use crate::counts::place_from;
use crate::entry::Entry;
use crate::going::Going;
use crate::group_map::GroupMap;
use crate::index::next_older;
use slot_pool::SlotPool;
use std::alloc::Global;
use std::marker::Model;
use vss_names::{MOST_IMAGES, OutOfMemory};

/// The images of a volume, and which slot of the diff area holds which old block of which image: a group of one volume. Several
/// maps may share one pool of slots.
#[derive(Drop)]
pub struct DiffMap {
    group: GroupMap,
}

impl Model for DiffMap {
    ghost use Rattle.std.specs.Prelude.{◌≡◌, length};
    ghost use Rattle.diff_map.specs.Groups.{map_at};
    ghost use Rattle.diff_map.specs.Copies.{MapValue};

    ghost Value = { MapValue };

    ghost view = { λ m. map_at m.group 0 };

    ghost invariant = { λ m. length m.group ≡ 1 };
}

impl DiffMap {
    /// A map without images for a volume of `blocks` blocks over a diff area of `slots` slots. It takes all memory
    /// that the map ever needs.
    pub fn new(alloc: Global, blocks: u32, slots: u32) -> Result<DiffMap, OutOfMemory>
        ensures { IfOk result (λ m. m ≡ record { blocks = blocks; images = []; copies = replicate slots None }) }
    {
        Ok(DiffMap {
            group: GroupMap::new(alloc, &[blocks], slots)?,
        })
    }

    /// The sets of the images, oldest first.
    pub fn images(&self) -> &[u32]
        ensures images { result.now ≡ self.now.images }
        ensures valid { IsMap self.now }
    {
        self.group.images(0)
    }

    /// For what the slot is noted.
    pub fn held_by(&self, slot: u32) -> Option<Copied>
        requires { slot < length self.now.copies }
        ensures { result ≡ copied_at self.now.copies slot }
    {
        self.group.held_by(0, slot)
    }

    /// The slot that shows what the image of `set` holds at this block: that of the first image, from the asked one
    /// to the newest, that has the block.
    pub fn find(&self, set: u32, block: u32) -> Option<u32>
        ensures found { IfSome result (IsFound self.now.copies set block) }
        ensures none { IsNone result ↔ IsAbsent self.now.copies set block }
    {
        self.group.find(0, set, block)
    }

    /// Whether the image of `set` has a copy of this block.
    fn has(&self, set: u32, block: u32) -> bool
        ensures { IsTrue result ↔ HasCopy self.now.copies set block }
    {
        self.group.has(0, set, block)
    }

    /// Whether the newest image has a copy of this block.
    pub fn newest_has(&self, block: u32) -> bool
        ensures { IsTrue result ↔ HasCopy self.now.copies (newest self.now.images) block }
    {
        self.group.newest_has(0, block)
    }

    /// Adds an image, the newest, without copies.
    pub fn add_image(&mut self, set: u32)
        requires room { length self.old.images < 512 }
        requires above_zero { 0 < set }
        requires newest { All (λ image. image < set) self.old.images }
        ensures { self.new ≡ record self.old { images = self.old.images ++ set ∷ [] } }
    {
        self.group.add_image(0, set);
    }

    /// Notes the slot for this block of the newest image.
    pub fn note(&mut self, block: u32, slot: u32)
        requires image { 0 < length self.old.images }
        requires in_range { block < self.old.blocks }
        requires lacks { HasCopy self.old.copies (newest self.old.images) block → ⊥ }
        requires unnoted { slice_get self.old.copies slot ≡ Some None }
        ensures { self.new ≡ record self.old { copies = slice_set self.old.copies slot (Some (copy_of (newest self.old.images) block)) } }
    {
        self.group.note(0, block, slot);
    }

    /// Notes the slot for this block of the image of `set`.
    fn note_for(&mut self, set: u32, block: u32, slot: u32)
        requires image { Contains self.old.images set }
        requires in_range { block < self.old.blocks }
        requires lacks { HasCopy self.old.copies set block → ⊥ }
        requires unnoted { slice_get self.old.copies slot ≡ Some None }
        ensures { self.new ≡ record self.old { copies = slice_set self.old.copies slot (Some (copy_of set block)) } }
    {
        self.group.note_for(0, set, block, slot);
    }

    /// Takes a copy of the image of `set` out, and answers what it was. Its slot is not given back.
    fn pop(&mut self, set: u32) -> Option<Entry>
        requires { Contains self.old.images set }
        ensures some { IfSome result (IsPopped self.old self.new set) }
        ensures none { IsNone result → (self.new ≡ self.old) × (used_for self.old.copies set ≡ 0) }
    {
        let at = place_from(self.images(), set);
        self.group.pop_at(0, at)
    }

    /// The same for the image at a place among the images.
    fn pop_at(&mut self, at: usize) -> Option<Entry>
        requires { at < length self.old.images }
        ensures some { IfSome result (IsPopped self.old self.new (slice_index self.old.images at)) }
        ensures none { IsNone result → (self.new ≡ self.old) × (used_for self.old.copies (slice_index self.old.images at) ≡ 0) }
    {
        self.group.pop_at(0, at)
    }

    /// Takes the image of `set` out, which has no copy.
    fn forget(&mut self, set: u32)
        requires image { Contains self.old.images set }
        requires none { (slot : ℕ) (copied : Copied) → copied_at self.old.copies slot ≡ Some copied → copied.set ≢ set }
        ensures { self.new ≡ record self.old { images = filter (λ image. not (image == set)) self.old.images } }
    {
        self.group.forget(0, set);
    }

    /// Takes each image newer than `set` out. None of them has a copy.
    fn forget_newer(&mut self, set: u32)
        requires { (slot : ℕ) (copied : Copied) → copied_at self.old.copies slot ≡ Some copied → copied.set ≤ set }
        ensures { self.new ≡ record self.old { images = filter (λ image. nat_le image set) self.old.images } }
    {
        self.group.forget_newer(0, set);
    }

    /// Frees the slots of the images that go, which stay.
    fn free(&mut self, going: Going, pool: &mut SlotPool)
        requires taken { AllTaken self.old.copies pool.old }
        ensures map { self.new ≡ record self.old { copies = renewed (rule_of going) self.old.copies } }
        ensures slots { GivesBack self.old.copies self.new.copies pool.old pool.new }
    {
        let (from, to) = going.places(self.images());
        for i in from..to {
            let image = self.images()[i];
            if going.takes(image) {
                'copies: while let Some(entry) = self.pop_at(i) {
                    pool.give(entry.slot);
                }
            }
        }
    }

    /// Gives the copies of the image of `set` to the older one where it lacks the block, and frees the others' slots.
    fn hand_down(&mut self, set: u32, older: u32, pool: &mut SlotPool)
        requires image { Contains self.old.images set }
        requires older { Contains self.old.images older }
        requires below { older < set }
        requires taken { AllTaken self.old.copies pool.old }
        ensures map { self.new ≡ record self.old { copies = renewed (merged self.old.copies (Some older) set) self.old.copies } }
        ensures slots { GivesBack self.old.copies self.new.copies pool.old pool.new }
    {
        let _facts = self.images();
        'copies: while let Some(entry) = self.pop(set) {
            if self.has(older, entry.block) {
                pool.give(entry.slot);
            } else {
                self.note_for(older, entry.block, entry.slot);
            }
        }
    }

    /// Gives the copies of the image of `set` to the next older one where it lacks the block, and frees the others' slots, or
    /// all where no image is older.
    fn merge(&mut self, set: u32, pool: &mut SlotPool)
        requires image { Contains self.old.images set }
        requires taken { AllTaken self.old.copies pool.old }
        ensures map { self.new ≡ record self.old { copies = renewed (merged self.old.copies (next_older self.old.images set) set) self.old.copies } }
        ensures slots { GivesBack self.old.copies self.new.copies pool.old pool.new }
    {
        match next_older(self.images(), set) {
            Some(older) => self.hand_down(set, older, pool),
            None => self.free(Going::Image(set), pool),
        }
    }

    /// Takes the oldest image out and gives its slots back.
    pub fn drop_oldest(&mut self, pool: &mut SlotPool)
        requires image { 0 < length self.old.images }
        requires taken { AllTaken self.old.copies pool.old }
        ensures map { self.new ≡ record { blocks = self.old.blocks; images = drop 1 self.old.images; copies = renewed (dropped (slice_index self.old.images 0)) self.old.copies } }
        ensures slots { GivesBack self.old.copies self.new.copies pool.old pool.new }
        ensures others { KeepsFinds self.old self.new (slice_index self.old.images 0) }
    {
        let oldest = self.images()[0];
        self.merge_down(oldest, pool);
    }

    /// Takes the image of `set` out. The next older image gets the copies of those blocks that it lacks; the other
    /// copies' slots, or all where no image is older, are given back.
    pub fn merge_down(&mut self, set: u32, pool: &mut SlotPool)
        requires image { Contains self.old.images set }
        requires taken { AllTaken self.old.copies pool.old }
        ensures map { self.new ≡ record { blocks = self.old.blocks; images = filter (λ image. not (image == set)) self.old.images; copies = renewed (merged self.old.copies (next_older self.old.images set) set) self.old.copies } }
        ensures slots { GivesBack self.old.copies self.new.copies pool.old pool.new }
        ensures others { KeepsFinds self.old self.new set }
    {
        let _facts = self.images();
        self.merge(set, pool);
        self.forget(set);
    }

    /// Takes each image newer than `set` out and empties the image of `set`, which stays; all their slots are given
    /// back.
    pub fn clear_from(&mut self, set: u32, pool: &mut SlotPool)
        requires image { Contains self.old.images set }
        requires taken { AllTaken self.old.copies pool.old }
        ensures map { self.new ≡ record { blocks = self.old.blocks; images = filter (λ image. nat_le image set) self.old.images; copies = renewed (cleared set) self.old.copies } }
        ensures slots { GivesBack self.old.copies self.new.copies pool.old pool.new }
    {
        self.free(Going::From(set), pool);
        self.forget_newer(set);
    }
}
