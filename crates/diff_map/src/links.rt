//! Which slot holds which block for which set, in chains: one for each block, its copies from the newest on.

ghost use Rattle.std.specs.Prelude.{◌≡◌, ◌<◌, ◌≤◌, ◌^◌, ◌↔◌, Some, None, length, replicate, slice_get, slice_set, IfOk, IfSome, IsNone, IsTrue};
ghost use Rattle.diff_map.specs.Copies.{HasCopy, copied_at, copy_of, IsFound, IsAbsent};
ghost use Rattle.diff_map.specs.Links.{AreLinked, row_at, HasBlock, NoneBetween, IsBetween, IsBelow, IsFrom, IsLowered, IsNextAbove, KeepsLinks, link_from, newest_after, older_after};

use crate::copied::Copied;
use crate::row::Row;
use std::alloc::Global;
use std::marker::Model;
use vss_names::OutOfMemory;

/// The copies of any number of blocks in so many slots.
#[derive(Drop)]
pub struct Links {
    /// For each block, the slot of its newest copy; the number of slots where it has none.
    newest: Vec<u32>,
    rows: Vec<Row>,
    /// For each slot, a copy of its block that stands some way down the chain, or any number.
    far: Vec<u32>,
}

impl Model for Links {
    ghost use Rattle.std.specs.Prelude.{length, map};
    ghost use Rattle.diff_map.specs.Links.{LinksValue, KeepsLinks, copy_in};

    ghost Value = { LinksValue };

    ghost view = { λ l. record { blocks = length l.newest.items; copies = map copy_in l.rows.items } };

    ghost invariant = { λ l. KeepsLinks l.newest.items l.rows.items };
}

/// All sets are below this one.
const ABOVE_ALL: u64 = 1 << 32;

/// No slot: what a far link names where no copy is older.
const NOWHERE: u32 = u32::MAX;

/// The slot that a link of a block names, where its copy is of the block and between these sets. Else the link leads to no such copy: what
/// it named went, and another copy may have its slot.
fn reach(rows: &[Row], link: u32, block: u32, low: u32, high: u64) -> Option<u32>
    ensures on { IfSome result (IsBetween rows.now block low high) }
    ensures none { IsNone result → IsBelow rows.now link block high → NoneBetween rows.now block low high }
{
    if (link as usize) >= rows.len() {
        return None;
    }
    let row = rows[link as usize];
    if row.block == block && row.set > low && u64::from(row.set) < high {
        return Some(link);
    }
    None
}

/// The copy of a block with the least set above `low`. It walks the copies, the newest first.
fn next_above(newest: &[u32], rows: &[Row], far: &[u32], block: u32, low: u32) -> Option<u32>
    requires keeps { KeepsLinks newest.now rows.now }
    requires in_range { block < length newest.now }
    ensures { IsNextAbove rows.now block low result }
{
    let Some(first) = reach(rows, newest[block as usize], block, low, ABOVE_ALL) else {
        return None;
    };
    let mut at = first;
    'chain: while let Some(older) = older_above(rows, far, block, at, low) {
        at = older;
    }
    Some(at)
}

/// An older copy of a block than this one, where one is above `low`: that of the far link, or the next one.
fn older_above(rows: &[Row], far: &[u32], block: u32, at: u32, low: u32) -> Option<u32>
    requires { at < length rows.now }
    ensures on { IfSome result (IsBetween rows.now block low (row_at rows.now at).set) }
    ensures none { IsNone result → IsBelow rows.now (row_at rows.now at).older block (row_at rows.now at).set → NoneBetween rows.now block low (row_at rows.now at).set }
{
    let row = rows[at as usize];
    let high = u64::from(row.set);
    if (at as usize) < far.len() {
        if let Some(older) = reach(rows, far[at as usize], block, low, high) {
            return Some(older);
        }
    }
    reach(rows, row.older, block, low, high)
}

/// The set of the copy of a slot; 0 past the last.
fn set_at(rows: &[Row], slot: u32) -> u32 {
    match rows.get(slot as usize) {
        Some(row) => row.set,
        None => 0,
    }
}

/// The far link of a slot; any number past the last.
fn far_at(far: &[u32], slot: u32) -> u32 {
    match far.get(slot as usize) {
        Some(link) => *link,
        None => NOWHERE,
    }
}

/// Where the far link of a copy of this block and set leads, which stands above this link: to that link's copy, or twice as far as before
/// where the last two far links are about as long. Where no copy is older, nothing else is looked at, now or when the link is followed.
fn far_from(rows: &[Row], far: &[u32], block: u32, set: u32, older: u32) -> u32 {
    if reach(rows, older, block, 0, u64::from(set)).is_none() {
        return NOWHERE;
    }
    let next = far_at(far, older);
    let last = far_at(far, next);
    let (top, middle, bottom) = (set_at(rows, older), set_at(rows, next), set_at(rows, last));
    if bottom > 0 && top.saturating_sub(middle) >= middle.saturating_sub(bottom) {
        return last;
    }
    older
}

/// That far link leads elsewhere now.
fn lead_far(far: &mut Vec<u32>, slot: u32, to: u32) {
    if (slot as usize) < far.len() {
        far[slot as usize] = to;
    }
}

/// The link of a block from this copy, or from the block itself.
fn link_from(newest: &[u32], rows: &[Row], block: u32, from: Option<u32>) -> u32
    requires in_range { block < length newest.now }
    requires inside { IfSome from (λ slot. slot < length rows.now) }
    ensures { result ≡ link_from newest.now rows.now block from }
{
    match from {
        Some(slot) => rows[slot as usize].older,
        None => newest[block as usize],
    }
}

/// That link leads elsewhere now.
fn lead(newest: &mut Vec<u32>, rows: &mut Vec<Row>, block: u32, from: Option<u32>, to: u32)
    requires in_range { block < length newest.old.items }
    requires inside { IfSome from (λ slot. slot < length rows.old.items) }
    ensures newest { newest.new.items ≡ newest_after newest.old.items block from to }
    ensures rows { rows.new.items ≡ older_after rows.old.items from to }
{
    match from {
        Some(slot) => {
            let row = rows[slot as usize];
            rows[slot as usize] = Row { older: to, ..row };
        }
        None => newest[block as usize] = to,
    }
}

impl Links {
    /// No copies, for so many blocks and slots. It takes all memory that is ever needed.
    #[tactic(auto, using(crate::proofs::LinkedCopies::value_new))]
    pub fn new(alloc: Global, blocks: u32, slots: u32) -> Result<Links, OutOfMemory>
        ensures { IfOk result (λ links. links ≡ record { blocks = blocks; copies = replicate slots None }) }
    {
        let empty = Row {
            block: 0,
            set: 0,
            older: slots,
        };
        Ok(Links {
            newest: vec![in alloc; slots; blocks as usize]?,
            rows: vec![in alloc; empty; slots as usize]?,
            far: vec![in alloc; slots; slots as usize]?,
        })
    }

    /// How many blocks there are.
    pub fn blocks(&self) -> u32
        ensures { result ≡ self.now.blocks }
    {
        self.newest.len() as u32
    }

    /// How many slots there are.
    pub fn slots(&self) -> u32
        ensures slots { result ≡ length self.now.copies }
        ensures valid { AreLinked self.now }
    {
        self.rows.len() as u32
    }

    /// The copy that the slot has.
    pub fn held_by(&self, slot: u32) -> Option<Copied>
        requires { slot < length self.now.copies }
        ensures { result ≡ copied_at self.now.copies slot }
    {
        let row = self.rows[slot as usize];
        if row.set == 0 {
            return None;
        }
        Some(Copied {
            set: row.set,
            block: row.block,
        })
    }

    /// The set of the copy that the slot has.
    pub fn set_of(&self, slot: u32) -> u32
        requires { (copied : Copied) × (copied_at self.now.copies slot ≡ Some copied) }
        ensures { (copied : Copied) → copied_at self.now.copies slot ≡ Some copied → copied.set ≡ result }
    {
        self.rows[slot as usize].set
    }

    /// The slot of the first copy of a block, from this set to the newest.
    pub fn find(&self, set: u32, block: u32) -> Option<u32>
        ensures found { IfSome result (IsFound self.now.copies set block) }
        ensures none { IsNone result ↔ IsAbsent self.now.copies set block }
    {
        if (block as usize) >= self.newest.len() {
            return None;
        }
        next_above(
            &self.newest,
            &self.rows,
            &self.far,
            block,
            set.saturating_sub(1),
        )
    }

    /// Whether a set has a copy of a block.
    pub fn has(&self, set: u32, block: u32) -> bool
        ensures { IsTrue result ↔ HasCopy self.now.copies set block }
    {
        let Some(slot) = self.find(set, block) else {
            return false;
        };
        self.set_of(slot) == set
    }

    /// Notes the slot for a block and a set, which has no copy of it.
    pub fn note(&mut self, set: u32, block: u32, slot: u32)
        requires in_range { block < self.old.blocks }
        requires above_zero { 0 < set }
        requires lacks { HasCopy self.old.copies set block → ⊥ }
        requires unnoted { slice_get self.old.copies slot ≡ Some None }
        ensures { self.new ≡ record self.old { copies = slice_set self.old.copies slot (Some (copy_of set block)) } }
    {
        let above = next_above(&self.newest, &self.rows, &self.far, block, set);
        let older = link_from(&self.newest, &self.rows, block, above);
        let far = far_from(&self.rows, &self.far, block, set, older);
        lead_far(&mut self.far, slot, far);
        self.rows[slot as usize] = Row { block, set, older };
        lead(&mut self.newest, &mut self.rows, block, above, slot);
    }

    /// Takes the copy of a slot out. The answer is its block. Where no copy of the block is older, the link to it is left as it is: it
    /// leads to no copy of the block any more.
    pub fn take_out(&mut self, slot: u32) -> u32
        requires { (copied : Copied) × (copied_at self.old.copies slot ≡ Some copied) }
        ensures links { self.new ≡ record self.old { copies = slice_set self.old.copies slot None } }
        ensures block { (copied : Copied) → copied_at self.old.copies slot ≡ Some copied → copied.block ≡ result }
    {
        let row = self.rows[slot as usize];
        if older_above(&self.rows, &self.far, row.block, slot, 0).is_none() {
            self.rows[slot as usize] = Row { set: 0, ..row };
            return row.block;
        }
        let above = next_above(&self.newest, &self.rows, &self.far, row.block, row.set);
        self.rows[slot as usize] = Row { set: 0, ..row };
        lead(
            &mut self.newest,
            &mut self.rows,
            row.block,
            above,
            row.older,
        );
        row.block
    }

    /// Gives the copy of a slot to a lesser set, where no copy of the block has a set from that one on and below its own. No link changes.
    /// The answer is the block.
    pub fn lower(&mut self, slot: u32, set: u32) -> Option<u32>
        requires above_zero { 0 < set }
        requires below { (copied : Copied) × (copied_at self.old.copies slot ≡ Some copied) × (set < copied.set) }
        ensures some { IfSome result (IsLowered self.old self.new slot set) }
        ensures none { IsNone result → self.new ≡ self.old }
    {
        let row = self.rows[slot as usize];
        if older_above(&self.rows, &self.far, row.block, slot, set - 1).is_some() {
            return None;
        }
        self.rows[slot as usize] = Row { set, ..row };
        Some(row.block)
    }
}
