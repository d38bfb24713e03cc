//! The rows of the slots of an area, and its header and table with other rows.

ghost use Rattle.std.specs.Prelude.{◌≡◌, ◌≤◌, ◌++◌, ◌-◌, drop, length, map, replicate, take, IfOk};
ghost use Rattle.image_folder.specs.Parts.{free, without};

use crate::state::{Row, State, row_in};
use crate::status::Status;
use block_data::BLOCK;
use byteorder::{ByteOrder, LittleEndian};
use std::alloc::{AllocError, Global};
use vss_catalog::Catalog;

/// The letters with which an area begins.
const LETTERS: &[u8; 8] = b"VSSAREA1";

/// The layout of an area.
const LAYOUT: u32 = 2;

/// How many rows a block of the table has.
const ROWS: usize = 1024;

/// The row of a slot in no use.
const FREE: Row = Row {
    set: 0,
    block: 0,
    volume: 0,
};

/// The rows of the slots of a state.
pub fn rows_of(alloc: Global, state: &State) -> Result<Vec<Row>, Status> {
    let mut rows = Vec::new(alloc);
    for slot in 0..state.slots() as usize {
        rows.push(row_in(&state.front, slot).unwrap_or(FREE))?;
    }
    Ok(rows)
}

/// The rows of an area that gets so many slots, of which the first so many go behind the others.
pub fn turned(
    alloc: Global,
    rows: &[Row],
    first: usize,
    slots: usize,
) -> Result<Vec<Row>, AllocError>
    requires first { first ≤ length rows.now }
    requires more { length rows.now ≤ slots }
    ensures { IfOk result (λ turned. turned.items
        ≡ (drop first rows.now ++ take first rows.now) ++ replicate (slots - length rows.now) free) }
{
    let (first, others) = rows.split_at(first);
    let mut turned = others.to_vec(alloc)?;
    turned.extend_from_slice(first)?;
    turned.resize(slots, FREE)?;
    Ok(turned)
}

/// A row without a volume: its slots are free, and volumes behind it have the number before theirs.
fn row_without(row: Row, volume: u32) -> Row
    ensures { result ≡ without volume row }
{
    if row.set == 0 {
        return FREE;
    }
    if row.volume == volume {
        return FREE;
    }
    if row.volume < volume {
        return row;
    }
    Row {
        volume: row.volume - 1,
        ..row
    }
}

/// The rows of an area without a volume.
pub fn rows_without(alloc: Global, rows: &[Row], volume: u32) -> Result<Vec<Row>, AllocError>
    ensures { IfOk result (λ left. left.items ≡ map (without volume) rows.now) }
{
    rows.iter()
        .map(|row| row_without(*row, volume))
        .collect(alloc)
}

/// Appends a number's four bytes.
fn push_number(front: &mut Vec<u8>, number: u32) -> Result<(), AllocError> {
    let mut word = [0; 4];
    LittleEndian::write_u32(&mut word, number);
    front.extend_from_slice(&word)
}

/// Appends numbers of four bytes each.
fn push_all(front: &mut Vec<u8>, numbers: &[u32]) -> Result<(), AllocError> {
    for number in numbers {
        push_number(front, *number)?;
    }
    Ok(())
}

/// A count as a number of four bytes.
fn number_of(count: usize) -> u32 {
    u32::try_from(count).unwrap_or(u32::MAX)
}

/// Appends zeros up to so many blocks.
fn pad(front: &mut Vec<u8>, blocks: usize) -> Result<(), AllocError> {
    front.resize(blocks.saturating_mul(BLOCK), 0)
}

/// Appends the header of an area with these rows, and the blocks of the volumes of a catalog.
fn push_header(front: &mut Vec<u8>, catalog: &Catalog, rows: &[Row]) -> Result<(), AllocError> {
    let (slots, used) = (rows.len(), rows.iter().filter(|row| row.set != 0).count());
    let volumes = catalog.volumes();
    front.extend_from_slice(LETTERS.as_slice())?;
    push_all(front, &[LAYOUT, number_of(slots), number_of(used), volumes])?;
    for volume in 0..volumes {
        push_number(front, catalog.blocks(volume))?;
    }
    pad(front, 1)
}

/// The front of an area: the header with the blocks of the volumes of a catalog, and a row for each slot.
pub fn front_of(alloc: Global, catalog: &Catalog, rows: &[Row]) -> Result<Vec<u8>, AllocError> {
    let mut front = Vec::new(alloc);
    push_header(&mut front, catalog, rows)?;
    for row in rows {
        push_all(&mut front, &[row.set, row.block, row.volume, 0])?;
    }
    pad(&mut front, rows.len().div_ceil(ROWS).saturating_add(1))?;
    Ok(front)
}
