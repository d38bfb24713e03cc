ghost use Rattle.std.specs.Prelude.{◌≡◌, ◌↔◌, Some, true, slice_get, IsTrue};
ghost use Rattle.image_folder.specs.KeptSums.{IsAfterRead, IsGiven, IsKept, IsWithFree, KeepsSum};

use crate::device::block_sum::BlockSum;
use crate::device::loose::Loose;
use crate::device::sum_table::{SumTable, sum_at};
use std::alloc::{AllocError, Global};
use std::sync::Arc;

/// The sums that are kept of the blocks of a device.
#[derive(Drop)]
pub struct KeptSums {
    /// One of each block; none if the folder has none.
    list: Vec<BlockSum>,
    /// The blocks of which no image has what is there.
    free: Vec<bool>,
    loose: Loose,
    table: Option<Arc<SumTable, Global>>,
    /// Where they begin in the table, and how many of the first blocks are not in it.
    first: usize,
    skipped: usize,
}

impl KeptSums {
    /// The sums of zeros, of so many blocks, which go to a table from a place on, but for those of so many first blocks.
    pub fn of_zeros(
        alloc: Global,
        blocks: u32,
        table: Option<Arc<SumTable, Global>>,
        first: usize,
        skipped: usize,
    ) -> Result<KeptSums, AllocError> {
        Ok(KeptSums {
            list: vec![in alloc; BlockSum::ZERO; blocks as usize]?,
            free: Vec::new(alloc),
            loose: Loose::Refused,
            table,
            first,
            skipped,
        })
    }

    /// Takes the sums that a table's bytes have. None are left if there are no bytes.
    pub fn take(&mut self, bytes: &[u8]) {
        if bytes.is_empty() {
            self.list.clear();
        }
        let (first, skipped) = (self.first, self.skipped);
        for index in skipped..self.list.len() {
            let place = first.saturating_add(index - skipped);
            match sum_at(bytes, place) {
                Some(sum) if index < self.list.len() => self.list[index] = sum,
                _ => {}
            }
        }
    }

    /// These sums, where of these blocks no image has what is there. What becomes of one of them with another sum is given, too.
    pub fn with_free(self, free: Vec<bool>, loose: Loose) -> KeptSums
        ensures { IsWithFree self free.items loose result }
    {
        let KeptSums {
            list,
            table,
            first,
            skipped,
            ..
        } = self;
        KeptSums {
            list,
            free,
            loose,
            table,
            first,
            skipped,
        }
    }

    /// Whether no image has what is at a block.
    pub fn is_free(&self, index: u32) -> bool
        ensures { IsTrue result ↔ (slice_get self.now.free.items index ≡ Some true) }
    {
        self.free.get(index as usize).copied().unwrap_or(false)
    }

    /// Keeps the sum of a block, if any are kept.
    pub fn keep(&mut self, index: u32, sum: BlockSum)
        ensures { KeepsSum self.old self.new index sum }
    {
        let index = index as usize;
        if index < self.list.len() {
            self.list[index] = sum;
            if let (Some(table), true) = (&self.table, index >= self.skipped) {
                table.put(self.first.saturating_add(index - self.skipped), sum);
            }
        }
    }

    /// Whether this is the sum that is kept of a block, if one is.
    pub fn has(&self, index: u32, sum: BlockSum) -> bool
        ensures { IsTrue result ↔ IsKept self.now index sum }
    {
        match self.list.get(index as usize) {
            Some(kept) => *kept == sum,
            None => true,
        }
    }

    /// Whether a block that has this sum is given.
    pub fn gives(&mut self, index: u32, sum: BlockSum) -> bool
        ensures given { IsTrue result ↔ IsGiven self.old index sum }
        ensures kept { IsAfterRead self.old self.new index sum }
    {
        if self.has(index, sum) {
            return true;
        }
        if !self.is_free(index) {
            return false;
        }
        match self.loose {
            Loose::Refused => false,
            Loose::Read => true,
            Loose::Kept => {
                self.keep(index, sum);
                true
            }
        }
    }
}
