//! Which blocks of a volume were written between two cuts, by the records of the slots alone.

ghost use Rattle.std.specs.Prelude.{◌≡◌, ◌||◌, ℕ, length, option_map, slice_get};
ghost use Rattle.image_store.specs.Showing.{AreWritten, is_between, is_written};

use crate::which::Which;
use diff_area::{Area, Record};
use volume_device::Device;

/// Whether copies for a set's image were made between the cuts of two sets, in either order, or since the cut of the one.
fn is_between(one: u32, other: Which, set: u32) -> bool
    ensures { result ≡ is_between one other set }
{
    match other {
        Which::Now => one <= set,
        Which::Of(other) => (one <= set && set < other) || (other <= set && set < one),
    }
}

/// Marks the block of a record that is of such a copy.
fn mark_row(row: Record, v: u32, one: u32, other: Which, marks: &mut [bool])
    ensures len { length marks.new ≡ length marks.old }
    ensures more { (b : ℕ) → slice_get marks.new b ≡ option_map (λ mark. mark || is_written v one other b row) (slice_get marks.old b) }
{
    let at = row.block as usize;
    if row.volume == v && is_between(one, other, row.set) && at < marks.len() {
        marks[at] = true;
    }
}

/// Marks the blocks of a volume of which there are such copies.
pub fn mark_copied<D: Device>(area: &Area<D>, v: u32, one: u32, other: Which, marks: &mut [bool])
    ensures len { length marks.new ≡ length marks.old }
    ensures written { AreWritten area.now.records v one other marks.new }
{
    marks.fill(false);
    for slot in 0..area.slots() {
        mark_row(area.record_at(slot), v, one, other, marks);
    }
}
