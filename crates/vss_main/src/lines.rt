//! The lines of a listing. Each line is appended whole, or want of memory ends the text before its end.

ghost use Rattle.std.specs.Prelude.{◌≡◌, ◌+◌, ◌<◌, ◌≤◌, ◌++◌, length, OnOk};
ghost use Rattle.diff_area.specs.Format.{number_at, layout_in, slots_in, volumes_in, header_of};
ghost use Rattle.vss_main.specs.Inspected.{head_of, volume_line, volume_lines, used_line, record_of, slot_line, slot_lines};

use crate::words::{add_digest, add_number};
use byteorder::{ByteOrder, LittleEndian};
use diff_area::{AreaView, Record};
use vss_names::{OutOfMemory, Text};

/// The number at a place.
#[tactic(auto, unfolding(diff_area::specs::Format::number_at))]
pub fn number_at(bytes: &[u8], at: usize) -> u32
    requires { at + 4 ≤ length bytes.now }
    ensures { result ≡ number_at bytes.now at }
{
    LittleEndian::read_u32(&bytes[at..])
}

/// Appends the first line.
pub fn add_head(layout: u32, slots: u32, used: u32, out: &mut Text) -> Result<(), OutOfMemory>
    ensures { OnOk result (out.new.bytes ≡ out.old.bytes ++ head_of layout slots used) }
{
    add_number(out, b"area layout ", layout)?;
    add_number(out, b" slots ", slots)?;
    add_number(out, b" used ", used)?;
    out.add(b"\n")?;
    Ok(())
}

/// Appends the line of a volume.
fn add_volume(view: &AreaView<'_>, volume: u32, out: &mut Text) -> Result<(), OutOfMemory>
    requires { volume < length (volumes_in (header_of view.now)) }
    ensures { OnOk result (out.new.bytes ≡ out.old.bytes ++ volume_line view.now volume) }
{
    add_number(out, b"volume ", volume)?;
    add_number(out, b" blocks ", view.blocks(volume))?;
    out.add(b"\n")
}

/// Appends the lines of all volumes.
pub fn add_volumes(view: &AreaView<'_>, out: &mut Text) -> Result<(), OutOfMemory>
    ensures { OnOk result (out.new.bytes ≡ out.old.bytes ++ volume_lines view.now (length (volumes_in (header_of view.now)))) }
{
    for volume in 0..view.volumes() {
        add_volume(view, volume, out)?;
    }
    Ok(())
}

/// What the record of a slot says.
fn record_of(view: &AreaView<'_>, slot: u32) -> Record
    requires { slot < slots_in (header_of view.now) }
    ensures { result ≡ record_of view.now slot }
{
    let row = view.record_at(slot);
    let volume = if view.layout() == 1 {
        0
    } else {
        number_at(row, 8)
    };
    Record {
        set: number_at(row, 0),
        block: number_at(row, 4),
        volume,
    }
}

/// Appends the line of a slot that is used.
fn add_used(slot: u32, record: Record, block: &[u8], out: &mut Text) -> Result<(), OutOfMemory>
    ensures { OnOk result (out.new.bytes ≡ out.old.bytes ++ used_line slot «record» block.now) }
{
    add_number(out, b"slot ", slot)?;
    add_number(out, b" set ", record.set)?;
    add_number(out, b" volume ", record.volume)?;
    add_number(out, b" block ", record.block)?;
    out.add(b" ")?;
    add_digest(out, block)?;
    out.add(b"\n")
}

/// Appends the line of a slot, where it is used. A block is digested where it stands.
fn add_slot(view: &AreaView<'_>, slot: u32, out: &mut Text) -> Result<(), OutOfMemory>
    requires { slot < slots_in (header_of view.now) }
    ensures { OnOk result (out.new.bytes ≡ out.old.bytes ++ slot_line view.now slot) }
{
    let row = record_of(view, slot);
    if row.is_free() {
        return Ok(());
    }
    add_used(slot, row, view.slot(slot), out)
}

/// Appends the lines of all slots that are used.
pub fn add_slots(view: &AreaView<'_>, out: &mut Text) -> Result<(), OutOfMemory>
    ensures { OnOk result (out.new.bytes ≡ out.old.bytes ++ slot_lines view.now (slots_in (header_of view.now))) }
{
    for slot in 0..view.slots() {
        add_slot(view, slot, out)?;
    }
    Ok(())
}
