//! What a header says, and whether it is of the format.

ghost use Rattle.std.specs.Prelude.{◌≡◌, ◌≤◌, ◌<◌, ◌+◌, ◌*◌, length, vec_len, map, find, IfOk, IfErr, if◌then◌else◌, ◌==◌, take, drop};
ghost use Rattle.std.specs.List.{range_with_len};
ghost use Rattle.diff_area.specs.Format.{part, number_at, is_layout, fits, is_volume_count, is_out_of_range, is_nonzero, volume_count, volumes_from, layout_in, volumes_in, rest_in, blocks_for};
ghost use Rattle.diff_area.specs.Refusals.{IsBadHeader};
ghost use Rattle.diff_area.specs.ReadRows.{IsHeaderOf, IsAccepted};

use crate::area_fault::AreaFault;
use crate::header_field::HeaderField;
use crate::layout::{LAYOUT, MAGIC, pages_for};
use block_data::BLOCK;
use byteorder::{ByteOrder, LittleEndian};
use std::alloc::{AllocError, Global};
use vss_names::{MOST_BLOCKS, MOST_SLOTS, MOST_VOLUMES};

/// The layout of areas of one volume, which is read and no longer written.
pub const FIRST_LAYOUT: u32 = 1;

/// What the fields of a header say.
#[derive(Debug, Drop)]
pub struct Header {
    pub layout: u32,
    pub slots: u32,
    pub used: u32,
    pub volumes: Vec<u32>,
}

/// The number at a place. Bytes that are missing read as zeros.
#[tactic(auto, unfolding(crate::specs::Format::number_at))]
pub fn number_at(bytes: &[u8], at: usize) -> u32
    ensures { result ≡ number_at bytes.now at }
{
    let rest = &bytes[at.min(bytes.len())..];
    if rest.len() >= 4 {
        return LittleEndian::read_u32(rest);
    }
    let mut word = [0; 4];
    word[..rest.len()].copy_from_slice(rest);
    LittleEndian::read_u32(&word)
}

/// So many bytes from a place on.
#[tactic(auto, unfolding(crate::specs::Format::part))]
pub fn part(bytes: &[u8], at: usize, len: usize) -> &[u8]
    requires { at + len ≤ length bytes.now }
    ensures part { result.now ≡ part at len bytes.now }
    ensures len { length result.now ≡ len }
{
    &bytes[at..at + len]
}

fn is_layout(layout: u32) -> bool
    ensures { result ≡ is_layout layout }
{
    layout == FIRST_LAYOUT || layout == LAYOUT
}

/// Whether so many slots are not too many, and fit an area of so many bytes.
fn fits(size: usize, slots: u32) -> bool
    ensures { result ≡ fits size slots }
{
    slots <= MOST_SLOTS && size == BLOCK * (1 + pages_for(slots) as usize + slots as usize)
}

fn is_volume_count(count: u32) -> bool
    ensures { result ≡ is_volume_count count }
{
    1 <= count && count <= MOST_VOLUMES
}

fn is_out_of_range(blocks: u32) -> bool
    ensures { result ≡ is_out_of_range blocks }
{
    !(1 <= blocks && blocks <= MOST_BLOCKS)
}

/// A refusal of the header at this field.
fn bad_field(field: HeaderField, found: u32) -> AreaFault
    ensures { result ≡ AreaFault.BadHeader field found }
{
    AreaFault::BadHeader { field, found }
}

/// So many numbers from a place on.
fn numbers_from(
    alloc: Global,
    header: &[u8],
    from: usize,
    count: u32,
) -> Result<Vec<u32>, AllocError>
    requires few { count ≤ MOST_VOLUMES }
    requires near { from ≤ 24 }
    ensures numbers { IfOk result (λ numbers. numbers.items ≡ map (λ v. number_at header.now (from + 4 * v)) (range_with_len 0 count)) }
    ensures len { IfOk result (λ numbers. vec_len numbers ≡ count) }
{
    let mut numbers = Vec::with_capacity(alloc, count as usize)?;
    for v in 0..count {
        numbers.push(number_at(header, from + 4 * v as usize))?;
    }
    Ok(numbers)
}

/// How many volumes the area is of.
fn volume_count(header: &[u8], layout: u32) -> u32
    requires { layout ≡ layout_in header.now }
    ensures { result ≡ volume_count header.now }
{
    if layout == FIRST_LAYOUT {
        return 1;
    }
    number_at(header, 20)
}

/// Where the numbers of blocks of the volumes begin.
fn volumes_from(layout: u32) -> usize
    ensures from { result ≡ volumes_from layout }
    ensures near { result ≤ 24 }
{
    if layout == FIRST_LAYOUT { 20 } else { 24 }
}

/// The numbers of blocks of the volumes.
#[tactic(auto, unfolding(crate::specs::Format::volumes_in))]
fn volumes_in(alloc: Global, header: &[u8], layout: u32, count: u32) -> Result<Vec<u32>, AllocError>
    requires layout { layout ≡ layout_in header.now }
    requires count { count ≡ volume_count header.now }
    requires few { count ≤ MOST_VOLUMES }
    ensures volumes { IfOk result (λ volumes. volumes.items ≡ volumes_in header.now) }
    ensures len { IfOk result (λ volumes. vec_len volumes ≡ count) }
{
    numbers_from(alloc, header, volumes_from(layout), count)
}

/// The bytes after the last field.
#[tactic(auto, unfolding(crate::specs::Format::rest_in))]
fn rest_in(header: &[u8], layout: u32, count: u32) -> &[u8]
    requires layout { layout ≡ layout_in header.now }
    requires count { count ≡ volume_count header.now }
    requires few { count ≤ MOST_VOLUMES }
    ensures { result.now ≡ rest_in header.now }
{
    bytes_from(header, volumes_from(layout) + 4 * count as usize)
}

/// The bytes from a place on.
fn bytes_from(bytes: &[u8], at: usize) -> &[u8]
    ensures { result.now ≡ drop at bytes.now }
{
    if at >= bytes.len() {
        return &[];
    }
    &bytes[at..]
}

/// The first number of blocks that is out of range.
fn first_out_of_range(volumes: &[u32]) -> Option<u32>
    ensures { result ≡ find is_out_of_range volumes.now }
{
    volumes
        .iter()
        .copied()
        .find(|blocks| is_out_of_range(*blocks))
}

/// The first byte that is not zero.
fn first_nonzero(bytes: &[u8]) -> Option<u8>
    ensures { result ≡ find is_nonzero bytes.now }
{
    bytes.iter().copied().find(|byte| *byte != 0)
}

/// The fields of a header that is of the format, of an area of so many bytes.
pub fn check_header(alloc: Global, header: &[u8], size: usize) -> Result<Header, AreaFault>
    requires { length header.now ≤ BLOCK }
    ensures accepted { IfOk result (IsAccepted size header.now) }
    ensures few { IfOk result (λ accepted. accepted.slots ≤ MOST_SLOTS) }
    ensures few_volumes { IfOk result (λ accepted. vec_len accepted.volumes ≤ MOST_VOLUMES) }
    ensures whole { IfOk result (λ accepted. size ≡ BLOCK * blocks_for accepted.slots) }
    ensures refused { IfErr result (IsBadHeader size header.now) }
{
    if !header.starts_with(MAGIC.as_slice()) {
        return Err(bad_field(HeaderField::Magic, number_at(header, 0)));
    }
    let layout = number_at(header, 8);
    if !is_layout(layout) {
        return Err(bad_field(HeaderField::Layout, layout));
    }
    let slots = number_at(header, 12);
    if !fits(size, slots) {
        return Err(bad_field(HeaderField::Slots, slots));
    }
    let count = volume_count(header, layout);
    if !is_volume_count(count) {
        return Err(bad_field(HeaderField::Volumes, count));
    }
    let Ok(volumes) = volumes_in(alloc, header, layout, count) else {
        return Err(AreaFault::OutOfMemory);
    };
    if let Some(blocks) = first_out_of_range(&volumes) {
        return Err(bad_field(HeaderField::Blocks, blocks));
    }
    if let Some(byte) = first_nonzero(rest_in(header, layout, count)) {
        return Err(bad_field(HeaderField::Rest, u32::from(byte)));
    }
    Ok(Header {
        layout,
        slots,
        used: number_at(header, 16),
        volumes,
    })
}
