//! The sums as the next state has them: 16 bytes for each block of each volume in order, and then for each slot.

ghost use Rattle.std.specs.Prelude.{◌≤◌, length};

use crate::device::block_sum::BlockSum;
use byteorder::{ByteOrder, LittleEndian};
use std::alloc::{AllocError, Global};
use std::sync::atomic::AtomicU64;
use std::sync::atomic::Ordering::SeqCst;

/// How many bytes a sum has.
pub const SUM: usize = 16;

/// The sums of a folder that is open for writing. Its devices put what they write there, and a commit takes all of it.
#[derive(Drop)]
pub struct SumTable {
    numbers: Vec<AtomicU64>,
}

/// The sum at a place of a table's bytes, if it is there.
pub fn sum_at(bytes: &[u8], place: usize) -> Option<BlockSum> {
    let bytes = bytes.get(place.checked_mul(SUM)?..)?;
    let bytes = bytes.get(..SUM)?;
    Some(BlockSum {
        first: LittleEndian::read_u64(bytes),
        second: LittleEndian::read_u64(&bytes[8..]),
    })
}

impl SumTable {
    /// One of so many sums, each that of zeros.
    pub fn new(alloc: Global, sums: usize) -> Result<SumTable, AllocError> {
        let count = sums.saturating_mul(2);
        let mut numbers = Vec::with_capacity(alloc, count)?;
        for _number in 0..count {
            numbers.push(AtomicU64::new(0))?;
        }
        Ok(SumTable { numbers })
    }

    /// Takes the sums that a table's bytes have.
    pub fn take(&self, bytes: &[u8]) {
        for place in 0..bytes.len() / SUM {
            if let Some(sum) = sum_at(bytes, place) {
                self.put(place, sum);
            }
        }
    }

    /// Puts the sum of a place.
    pub fn put(&self, place: usize, sum: BlockSum) {
        if let [first, second, ..] = self.numbers.get(place.saturating_mul(2)..).unwrap_or(&[]) {
            first.store(sum.first, SeqCst);
            second.store(sum.second, SeqCst);
        }
    }

    /// The sum of a place, if it is there.
    pub fn get(&self, place: usize) -> Option<BlockSum> {
        match self.numbers.get(place.saturating_mul(2)..).unwrap_or(&[]) {
            [first, second, ..] => Some(BlockSum {
                first: first.load(SeqCst),
                second: second.load(SeqCst),
            }),
            _ => None,
        }
    }

    /// Takes so many sums of another table from a place on, and puts them from another place on.
    pub fn take_from(&self, other: &SumTable, from: usize, to: usize, count: usize) {
        for place in 0..count {
            if let Some(sum) = other.get(from.saturating_add(place)) {
                self.put(to.saturating_add(place), sum);
            }
        }
    }

    /// Fills a part of a buffer with the bytes from a number on. How many bytes those are is answered, 0 behind the last.
    pub fn fill(&self, from: usize, bytes: &mut [u8]) -> usize
        ensures { result ≤ length bytes.new }
    {
        let numbers = self.numbers.get(from..).unwrap_or(&[]);
        let count = numbers.len().min(bytes.len() / 8);
        for place in 0..count {
            match numbers.get(place) {
                Some(number) if 8 * place + 8 <= bytes.len() => {
                    LittleEndian::write_u64(&mut bytes[8 * place..], number.load(SeqCst));
                }
                _ => {}
            }
        }
        8 * count
    }
}
