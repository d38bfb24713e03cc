ghost use Rattle.std.specs.Prelude.{◌≡◌, ◌<◌, ◌^◌, ℕ, Bool, List, length, Option, Some, All, IfOk, replicate};
ghost use Rattle.block_data.specs.BlockBytes.{zeros};
ghost use Rattle.vss_names.specs.Faults.{HasCause};
ghost use Rattle.block_data.specs.declared.block_buf.TheConstants.{BLOCK};

use crate::device::Device;
use block_data::{BLOCK, BlockBuf};
use std::alloc::Global;
use vss_names::{Failed, FailingCalls, Numbers, OutOfMemory};

/// A device in memory, which tells its blocks. Which of its calls fail is planned.
#[derive(Debug, Drop)]
pub struct MemDevice {
    blocks: Vec<BlockBuf>,
    reads: FailingCalls,
    writes: FailingCalls,
    flushes: FailingCalls,
    count: u64,
    /// Whether a block was written since the last accepted flush.
    dirty: bool,
    ghost whole: { All (λ block. length block ≡ BLOCK) blocks.items },
    ghost in_range: { length blocks.items < 2 ^ 32 },
}

/// So many blocks of zeros.
fn zero_blocks(alloc: Global, count: u32) -> Result<Vec<BlockBuf>, OutOfMemory>
    ensures zero { IfOk result (λ blocks. blocks.items ≡ replicate count zeros) }
    ensures whole { IfOk result (λ blocks. All (λ block. length block ≡ BLOCK) blocks.items) }
    ensures len { IfOk result (λ blocks. length blocks.items ≡ count) }
{
    let mut blocks = Vec::with_capacity(alloc, count as usize)?;
    for _index in 0..count {
        let block = BlockBuf::zeroed(alloc)?;
        blocks.push(block)?;
    }
    Ok(blocks)
}

impl MemDevice {
    ghost use Rattle.volume_device.specs.InMemory.{IsNew, blocks_of, reads_of, writes_of, flushes_of, faults_of, is_dirty};
    ghost use Rattle.vss_names.specs.Faults.{failing_at};

    /// A device of so many zero blocks, none of whose calls fails.
    pub fn new(alloc: Global, blocks: u32) -> Result<MemDevice, OutOfMemory>
        ensures { IfOk result (λ device. IsNew blocks device) }
    {
        let blocks = zero_blocks(alloc, blocks)?;
        Ok(MemDevice {
            blocks,
            reads: FailingCalls::of(Numbers::new(alloc)),
            writes: FailingCalls::of(Numbers::new(alloc)),
            flushes: FailingCalls::of(Numbers::new(alloc)),
            count: 0,
            dirty: false,
        })
    }

    /// The device, of whose further calls those with these numbers fail. Each kind is counted from 1.
    pub fn failing(self, reads: Numbers, writes: Numbers, flushes: Numbers) -> MemDevice
        ensures blocks { blocks_of result ≡ blocks_of self }
        ensures reads { reads_of result ≡ failing_at reads }
        ensures writes { writes_of result ≡ failing_at writes }
        ensures flushes { flushes_of result ≡ failing_at flushes }
        ensures faults { faults_of result ≡ faults_of self }
        ensures dirty { is_dirty result ≡ is_dirty self }
    {
        MemDevice {
            blocks: self.blocks,
            reads: FailingCalls::of(reads),
            writes: FailingCalls::of(writes),
            flushes: FailingCalls::of(flushes),
            count: self.count,
            dirty: self.dirty,
        }
    }
}

impl Device for MemDevice {
    ghost use Rattle.volume_device.specs.InMemory.{blocks_of, faults_of, lasting_of, lends_of, IsRead, IsWrite, IsFlush};

    ghost told = { λ d. Some (blocks_of d) };

    ghost size = { λ d. length (blocks_of d) };

    ghost count = { faults_of };

    ghost lending = { lends_of };

    ghost lasting = { lasting_of };

    fn blocks(&self) -> u32 {
        self.blocks.len() as u32
    }

    fn read_into(&mut self, index: u32, out: &mut [u8]) -> Result<(), Failed>
        requires in_range { index < length (blocks_of self.old) }
        requires whole { length out.old ≡ BLOCK }
        ensures exact { IsRead self.old self.new index out.new result }
        ensures cause { HasCause (faults_of self.old) (faults_of self.new) result }
    {
        self.reads.make(&mut self.count)?;
        out.copy_from_slice(self.blocks[index as usize].bytes());
        Ok(())
    }

    fn write(&mut self, index: u32, block: &[u8]) -> Result<(), Failed>
        requires in_range { index < length (blocks_of self.old) }
        requires whole { length block.now ≡ BLOCK }
        ensures exact { IsWrite self.old self.new index block.now result }
        ensures size { length (blocks_of self.new) ≡ length (blocks_of self.old) }
        ensures cause { HasCause (faults_of self.old) (faults_of self.new) result }
    {
        self.writes.make(&mut self.count)?;
        let place = &mut self.blocks[index as usize];
        place.bytes_mut().copy_from_slice(block);
        self.dirty = true;
        Ok(())
    }

    fn flush(&mut self) -> Result<(), Failed>
        ensures exact { IsFlush self.old self.new result }
        ensures cause { HasCause (faults_of self.old) (faults_of self.new) result }
    {
        self.flushes.make(&mut self.count)?;
        self.dirty = false;
        Ok(())
    }

    fn lends(&self) -> bool {
        self.reads.is_empty()
    }

    fn lend(&self, index: u32) -> Option<&[u8]> {
        if self.reads.is_empty() {
            Some(self.blocks[index as usize].bytes())
        } else {
            None
        }
    }

    fn faults(&self) -> u64 {
        self.count
    }
}
