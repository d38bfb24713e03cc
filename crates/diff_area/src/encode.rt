//! The bytes of the header and of the table's pages.

ghost use Rattle.std.specs.Prelude.{◌≡◌, ◌≤◌, ◌+◌, ◌*◌, ◌-◌, ◌++◌, length, vec_len, vec_capacity, codes};
ghost use Rattle.std.specs.List.{flat_map};
ghost use Rattle.block_data.specs.BlockBytes.{run_of};
ghost use Rattle.diff_area.specs.Format.{used_in};
ghost use Rattle.diff_area.specs.AreaValue.{number_bytes, record_bytes, records_of_page, page_bytes, header_bytes};

use crate::layout::{LAYOUT, MAGIC, PAGE_RECORDS};
use crate::table_record::Record;
use block_data::BLOCK;
use byteorder::{ByteOrder, LittleEndian};
use vss_names::{MOST_SLOTS, MOST_VOLUMES};

/// Appends a number's four bytes, for which there is room.
#[tactic(auto, unfolding(crate::specs::AreaValue::number_bytes))]
fn push_number(page: &mut Vec<u8>, number: u32)
    requires { vec_len page.old + 4 ≤ vec_capacity page.old }
    ensures items { page.new.items ≡ page.old.items ++ number_bytes number }
    ensures len { vec_len page.new ≡ vec_len page.old + 4 }
    ensures capacity { vec_capacity page.old ≤ vec_capacity page.new }
{
    let mut word = [0; 4];
    LittleEndian::write_u32(&mut word, number);
    let _ = page.extend_from_slice(&word);
}

/// Appends a record's bytes, for which there is room.
#[tactic(auto, unfolding(crate::specs::AreaValue::record_bytes))]
fn push_record(page: &mut Vec<u8>, row: Record)
    requires { vec_len page.old + 16 ≤ vec_capacity page.old }
    ensures items { page.new.items ≡ page.old.items ++ record_bytes row }
    ensures len { vec_len page.new ≡ vec_len page.old + 16 }
    ensures capacity { vec_capacity page.old ≤ vec_capacity page.new }
{
    push_number(page, row.set);
    push_number(page, row.block);
    push_number(page, row.volume);
    push_number(page, 0);
}

/// Appends the bytes of these records.
fn push_records(page: &mut Vec<u8>, rows: &[Record])
    requires { vec_len page.old + 16 * length rows.now ≤ vec_capacity page.old }
    ensures items { page.new.items ≡ page.old.items ++ flat_map record_bytes rows.now }
    ensures len { vec_len page.new ≡ vec_len page.old + 16 * length rows.now }
    ensures capacity { vec_capacity page.old ≤ vec_capacity page.new }
{
    for row in rows {
        push_record(page, *row);
    }
}

/// Appends these numbers.
fn push_numbers(page: &mut Vec<u8>, numbers: &[u32])
    requires { vec_len page.old + 4 * length numbers.now ≤ vec_capacity page.old }
    ensures items { page.new.items ≡ page.old.items ++ flat_map number_bytes numbers.now }
    ensures len { vec_len page.new ≡ vec_len page.old + 4 * length numbers.now }
    ensures capacity { vec_capacity page.old ≤ vec_capacity page.new }
{
    for number in numbers {
        push_number(page, *number);
    }
}

/// Appends zeros up to this size.
#[tactic(auto, unfolding(block_data::specs::BlockBytes::run_of))]
fn pad(page: &mut Vec<u8>, size: usize)
    requires within { vec_len page.old ≤ size }
    requires room { size ≤ vec_capacity page.old }
    ensures items { page.new.items ≡ page.old.items ++ run_of (size - vec_len page.old) 0 }
    ensures len { vec_len page.new ≡ size }
    ensures capacity { vec_capacity page.old ≤ vec_capacity page.new }
{
    let _ = page.resize(size, 0);
}

/// How many records are not free.
pub fn used_in(records: &[Record]) -> usize
    ensures { result ≡ used_in records.now }
{
    records.iter().filter(|row| !row.is_free()).count()
}

/// The records of page `k` of the table.
#[tactic(auto, unfolding(crate::specs::AreaValue::records_of_page), using(std::proofs::lemmas::List::take_min))]
fn records_of_page(records: &[Record], k: usize) -> &[Record]
    requires { 1024 * k ≤ length records.now }
    ensures rows { result.now ≡ records_of_page records.now k }
    ensures few { length result.now ≤ 1024 }
{
    let most = PAGE_RECORDS as usize;
    let rest = &records[most * k..];
    &rest[..most.min(rest.len())]
}

/// Makes `page` the bytes of page `k` of the table.
#[tactic(auto, unfolding(crate::specs::AreaValue::page_bytes, crate::specs::AreaValue::padded))]
pub fn fill_page(page: &mut Vec<u8>, records: &[Record], k: usize)
    requires room { BLOCK ≤ vec_capacity page.old }
    requires page { 1024 * k ≤ length records.now }
    ensures bytes { page.new.items ≡ page_bytes records.now k }
    ensures len { vec_len page.new ≡ BLOCK }
    ensures room { BLOCK ≤ vec_capacity page.new }
{
    page.clear();
    push_records(page, records_of_page(records, k));
    pad(page, BLOCK);
}

/// Makes `page` the bytes of the header.
#[tactic(auto, unfolding(crate::specs::AreaValue::header_bytes, crate::specs::AreaValue::padded))]
pub fn fill_header(page: &mut Vec<u8>, volumes: &[u32], records: &[Record])
    requires room { BLOCK ≤ vec_capacity page.old }
    requires few { length volumes.now ≤ MOST_VOLUMES }
    requires few_slots { length records.now ≤ MOST_SLOTS }
    ensures bytes { page.new.items ≡ header_bytes volumes.now records.now }
    ensures len { vec_len page.new ≡ BLOCK }
    ensures room { BLOCK ≤ vec_capacity page.new }
{
    page.clear();
    let _ = page.extend_from_slice(MAGIC);
    push_number(page, LAYOUT);
    push_number(page, records.len() as u32);
    push_number(page, used_in(records) as u32);
    push_number(page, volumes.len() as u32);
    push_numbers(page, volumes);
    pad(page, BLOCK);
}
