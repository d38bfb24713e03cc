//! The records of a table, and whether they are of the format.

ghost use Rattle.std.specs.Prelude.{◌≡◌, ◌<◌, ◌≤◌, ◌+◌, ◌^◌, ◌*◌, true, [], ◌∷◌, ◌++◌, length, IfOk, IfErr, OnOk};
ghost use Rattle.diff_area.specs.Format.{row_of, has_zeros, is_used, is_sound, is_good, row_at, row_count, pages_for, IsNarrow};
ghost use Rattle.diff_area.specs.ReadRows.{IsBadRow, AreGood, AreRefused, IsTable, IsTableRefused, IsNoted, IsSeen};

use crate::area_fault::AreaFault;
use crate::encode::used_in;
use crate::header::{FIRST_LAYOUT, Header, number_at, part};
use crate::header_field::HeaderField;
use crate::layout::{LAYOUT, PAGE_RECORDS, pages_for};
use crate::table_record::Record;
use block_data::BLOCK;
use std::alloc::Global;
use std::collections::BTreeSet;
use vss_names::{MOST_SLOTS, OutOfMemory};

/// What a record says, in its layout.
fn row_of(layout: u32, bytes: &[u8]) -> Record
    ensures { result ≡ row_of layout bytes.now }
{
    let volume = if layout == FIRST_LAYOUT {
        0
    } else {
        number_at(bytes, 8)
    };
    Record {
        set: number_at(bytes, 0),
        block: number_at(bytes, 4),
        volume,
    }
}

/// Whether a record's other bytes are zeros.
fn has_zeros(layout: u32, bytes: &[u8]) -> bool
    ensures { result ≡ has_zeros layout bytes.now }
{
    (layout == LAYOUT || number_at(bytes, 8) == 0) && number_at(bytes, 12) == 0
}

/// Whether a record is of a set, of a volume of the group and of a block of that volume.
fn is_used(volumes: &[u32], row: Record) -> bool
    ensures { result ≡ is_used volumes.now row }
{
    0 < row.set && (row.volume as usize) < volumes.len() && row.block < volumes[row.volume as usize]
}

/// Whether a record is good by itself.
#[tactic(auto, unfolding(crate::specs::Format::is_sound))]
fn is_sound(header: &Header, slot: u32, bytes: &[u8]) -> bool
    ensures { result ≡ is_sound header.now.volumes.items header.now.slots header.now.layout slot bytes.now }
{
    let row = row_of(header.layout, bytes);
    has_zeros(header.layout, bytes)
        && (row.is_free() || (is_used(&header.volumes, row) && slot < header.slots))
}

/// Notes a record, and answers whether it is free or no earlier one is equal.
#[tactic(auto, using(crate::proofs::GoodRecords::noted))]
fn note(seen: &mut BTreeSet<Record>, row: Record) -> Result<bool, OutOfMemory>
    ensures { IfOk result (IsNoted seen.old seen.new row) }
{
    if row.is_free() {
        return Ok(true);
    }
    Ok(seen.insert(row)?)
}

/// The refusal of a record.
fn bad_record(slot: u32, row: Record) -> AreaFault
    ensures { result ≡ AreaFault.BadRecord slot row.set row.block row.volume }
{
    AreaFault::BadRecord {
        slot,
        set: row.set,
        block: row.block,
        volume: row.volume,
    }
}

/// Takes the record of the next slot.
#[tactic(auto, unfolding(crate::specs::Format::is_good))]
fn take_row(
    header: &Header,
    bytes: &[u8],
    seen: &mut BTreeSet<Record>,
    rows: &mut Vec<Record>,
) -> Result<(), AreaFault>
    requires few { length rows.old.items < 2 ^ 31 }
    requires seen { IsSeen seen.old rows.old.items }
    ensures taken { OnOk result (rows.new.items ≡ rows.old.items ++ row_of header.now.layout bytes.now ∷ []) }
    ensures narrow { OnOk result (IsNarrow (row_of header.now.layout bytes.now)) }
    ensures good { OnOk result (is_good header.now.volumes.items header.now.slots header.now.layout (length rows.old.items) bytes.now rows.old.items ≡ true) }
    ensures seen { OnOk result (IsSeen seen.new rows.new.items) }
    ensures refused { IfErr result (IsBadRow header.now bytes.now rows.old.items) }
{
    let row = row_of(header.layout, bytes);
    let slot = rows.len() as u32;
    if !is_sound(header, slot, bytes) {
        return Err(bad_record(slot, row));
    }
    match note(seen, row) {
        Err(OutOfMemory) => return Err(AreaFault::OutOfMemory),
        Ok(false) => return Err(bad_record(slot, row)),
        Ok(true) => {}
    }
    if rows.push(row).is_err() {
        return Err(AreaFault::OutOfMemory);
    }
    Ok(())
}

/// The bytes of the record of a slot.
#[tactic(auto, unfolding(crate::specs::Format::row_at))]
pub fn row_at(table: &[u8], slot: usize) -> &[u8]
    requires { 16 * slot + 16 ≤ length table.now }
    ensures row { result.now ≡ row_at table.now slot }
    ensures len { length result.now ≡ 16 }
{
    part(table, 16 * slot, 16)
}

/// The first `count` records of a table, in order, where each is good. Equal ones are found by an ordered set of
/// those before, in as many steps as it has levels.
pub fn check_rows(
    alloc: Global,
    header: &Header,
    table: &[u8],
    count: usize,
) -> Result<Vec<Record>, AreaFault>
    requires whole { 16 * count ≤ length table.now }
    requires few { count < 2 ^ 31 }
    ensures good { IfOk result (λ rows. AreGood header.now table.now count rows.items) }
    ensures refused { IfErr result (AreRefused header.now table.now count) }
{
    let mut seen = BTreeSet::new(alloc);
    let mut rows = Vec::new(alloc);
    for slot in 0..count {
        match take_row(header, row_at(table, slot), &mut seen, &mut rows) {
            Ok(()) => {}
            Err(fault) => return Err(fault),
        }
    }
    Ok(rows)
}

/// The records of the slots of a table that is of the format.
pub fn check_table(alloc: Global, header: &Header, table: &[u8]) -> Result<Vec<Record>, AreaFault>
    requires few { header.now.slots ≤ MOST_SLOTS }
    requires whole { length table.now ≡ BLOCK * pages_for header.now.slots }
    ensures accepted { IfOk result (λ rows. IsTable header.now table.now rows.items) }
    ensures refused { IfErr result (IsTableRefused header.now table.now) }
{
    let count = PAGE_RECORDS as usize * pages_for(header.slots) as usize;
    match check_rows(alloc, header, table, count) {
        Err(fault) => Err(fault),
        Ok(rows) => count_used(header, table, rows),
    }
}

/// The records of the slots, where as many are used as the header says.
fn count_used(header: &Header, table: &[u8], rows: Vec<Record>) -> Result<Vec<Record>, AreaFault>
    requires good { AreGood header.now table.now (row_count header.now.slots) rows.items }
    ensures accepted { IfOk result (λ rows. IsTable header.now table.now rows.items) }
    ensures refused { IfErr result (IsTableRefused header.now table.now) }
{
    let mut rows = rows;
    rows.truncate(header.slots as usize);
    if used_in(&rows) != header.used as usize {
        return Err(AreaFault::BadHeader {
            field: HeaderField::Used,
            found: header.used,
        });
    }
    Ok(rows)
}
