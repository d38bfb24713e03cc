//! Where the parts of an area stand on its device.

ghost use Rattle.std.specs.Prelude.{◌≡◌, ◌<◌, ◌≤◌};
ghost use Rattle.diff_area.specs.Format.{pages_for, place_of_slot};

use vss_names::MOST_SLOTS;

/// The letters with which an area begins.
pub const MAGIC: &[u8; 8] = b"VSSAREA1";

/// The layout that is written.
pub const LAYOUT: u32 = 2;

/// The number of records of a table page.
pub const PAGE_RECORDS: u32 = 1024;

/// How many table pages there are for so many slots.
pub fn pages_for(slots: u32) -> u32
    requires { slots ≤ MOST_SLOTS }
    ensures { result ≡ pages_for slots }
{
    (slots + (PAGE_RECORDS - 1)) / PAGE_RECORDS
}

/// The block in which a slot stands.
pub fn place_of_slot(slots: u32, slot: u32) -> u32
    requires few { slots ≤ MOST_SLOTS }
    requires within { slot < slots }
    ensures { result ≡ place_of_slot slots slot }
{
    1 + pages_for(slots) + slot
}
