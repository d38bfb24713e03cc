use std::alloc::Global;
use vss_names::{MOST_BLOCKS, OutOfMemory};

/// When the blocks of each row's volume were written last.
#[derive(Drop)]
pub struct Writes {
    rows: Vec<Vec<u64>>,
}

impl Writes {
    /// Nothing is written, in so many rows.
    pub fn new(alloc: Global, count: usize) -> Result<Writes, OutOfMemory> {
        let mut rows = Vec::new(alloc);
        for _ in 0..count {
            rows.push(Vec::new(alloc))?;
        }
        Ok(Writes { rows })
    }

    /// Notes that a block of a row is written now, and answers when it was before: 0 for never.
    pub fn write(&mut self, row: usize, block: u64, now: u64) -> Result<u64, OutOfMemory> {
        let block = (block as usize).min(MOST_BLOCKS as usize);
        let Some(blocks) = self.rows.get_mut(row) else {
            return Ok(0);
        };
        if blocks.len() <= block {
            blocks.resize(block + 1, 0)?;
        }
        let before = blocks.get(block).copied().unwrap_or(0);
        if let Some(at) = blocks.get_mut(block) {
            *at = now;
        }
        Ok(before)
    }
}
