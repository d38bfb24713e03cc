//! The header and the table, written to a device.

ghost use Rattle.std.specs.Prelude.{◌≡◌, ◌<◌, ◌≤◌, ◌+◌, ◌*◌, Bool, length, slice_get, slice_set, option_map, vec_capacity, IfSome, OnOk, OnErr};
ghost use Rattle.vss_names.specs.Faults.{HasCause};
ghost use Rattle.volume_device.specs.InMemory.{AreBlocks};
ghost use Rattle.diff_area.specs.AreaValue.{AreWritten, AreInPart, with_first, page_bytes, header_bytes, table_blocks};
ghost use Rattle.diff_area.specs.Format.{blocks_for, pages_for};

use crate::encode::{fill_header, fill_page};
use crate::table_record::Record;
use block_data::BLOCK;
use volume_device::Device;
use vss_names::{Failed, MOST_SLOTS, MOST_VOLUMES};

/// Writes the header.
fn write_header<D: Device>(
    device: &mut D,
    page: &mut Vec<u8>,
    volumes: &[u32],
    records: &[Record],
) -> Result<(), Failed>
    requires room { BLOCK ≤ vec_capacity page.old }
    requires few { length volumes.now ≤ MOST_VOLUMES }
    requires few_slots { length records.now ≤ MOST_SLOTS }
    requires in_range { 0 < D.size device.old }
    ensures written { OnOk result (D.told device.new ≡ option_map (λ blocks. slice_set blocks 0 (header_bytes volumes.now records.now)) (D.told device.old)) }
    ensures kept { OnErr result (D.told device.new ≡ D.told device.old) }
    ensures size { D.size device.new ≡ D.size device.old }
    ensures lending { D.lending device.new ≡ D.lending device.old }
    ensures room { BLOCK ≤ vec_capacity page.new }
    ensures cause { HasCause (D.count device.old) (D.count device.new) result }
{
    fill_header(page, volumes, records);
    device.write(0, page)
}

/// Writes page `k` of the table.
fn write_page<D: Device>(
    device: &mut D,
    page: &mut Vec<u8>,
    records: &[Record],
    k: usize,
) -> Result<(), Failed>
    requires room { BLOCK ≤ vec_capacity page.old }
    requires page { 1024 * k ≤ length records.now }
    requires few { length records.now ≤ MOST_SLOTS }
    requires in_range { 1 + k < D.size device.old }
    ensures written { OnOk result (D.told device.new ≡ option_map (λ blocks. slice_set blocks (1 + k) (page_bytes records.now k)) (D.told device.old)) }
    ensures kept { OnErr result (D.told device.new ≡ D.told device.old) }
    ensures size { D.size device.new ≡ D.size device.old }
    ensures lending { D.lending device.new ≡ D.lending device.old }
    ensures room { BLOCK ≤ vec_capacity page.new }
    ensures cause { HasCause (D.count device.old) (D.count device.new) result }
{
    fill_page(page, records, k);
    device.write(1 + k as u32, page)
}

/// Writes the header and each changed page of the table, in order. The other pages stand there already.
pub fn write_table<D: Device>(
    device: &mut D,
    page: &mut Vec<u8>,
    volumes: &[u32],
    records: &[Record],
    changed: &[bool],
) -> Result<(), Failed>
    requires room { BLOCK ≤ vec_capacity page.old }
    requires few { length volumes.now ≤ MOST_VOLUMES }
    requires few_slots { length records.now ≤ MOST_SLOTS }
    requires pages { length changed.now ≡ pages_for (length records.now) }
    requires fits { D.size device.old ≡ blocks_for (length records.now) }
    requires written { AreWritten (D.told device.old) records.now changed.now }
    ensures written { OnOk result (D.told device.new ≡ option_map (with_first (table_blocks volumes.now records.now)) (D.told device.old)) }
    ensures whole { IfSome (D.told device.old) (AreBlocks (D.size device.old)) }
    ensures in_part { OnErr result (AreInPart (table_blocks volumes.now records.now) (D.told device.old) (D.told device.new)) }
    ensures size { D.size device.new ≡ D.size device.old }
    ensures lending { D.lending device.new ≡ D.lending device.old }
    ensures room { BLOCK ≤ vec_capacity page.new }
    ensures cause { HasCause (D.count device.old) (D.count device.new) result }
{
    let pages = device.blocks() as usize - 1 - records.len();
    write_header(device, page, volumes, records)?;
    for k in 0..pages {
        if changed[k] {
            write_page(device, page, records, k)?;
        }
    }
    Ok(())
}
