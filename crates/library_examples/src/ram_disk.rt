ghost use Rattle.std.specs.Prelude.{◌≡◌, ◌<◌, ◌^◌, true, Some, None, All, IfOk, if◌then◌else◌, length, replicate};
ghost use Rattle.block_data.specs.BlockBytes.{zeros};
ghost use Rattle.block_data.specs.declared.block_buf.TheConstants.{BLOCK};

use block_data::BlockBuf;
use std::alloc::Global;
use volume_device::Device;
use vss_names::{Failed, OutOfMemory};

/// A row of blocks in memory, which shows and lends them. No call of it fails. Its blocks last once they are flushed.
#[derive(Drop)]
pub struct RamDisk {
    blocks: Vec<BlockBuf>,
    /// Whether a block was written since the last flush.
    dirty: bool,
    ghost whole: { All (λ block. length block ≡ BLOCK) blocks.items },
    ghost in_range: { length blocks.items < 2 ^ 32 },
}

impl RamDisk {
    /// A disk of so many blocks of zeros.
    pub fn new(alloc: Global, count: u32) -> Result<RamDisk, OutOfMemory>
        ensures { IfOk result (λ disk. disk.blocks.items ≡ replicate count zeros) }
    {
        let mut blocks = Vec::with_capacity(alloc, count as usize)?;
        for _index in 0..count {
            blocks.push(BlockBuf::zeroed(alloc)?)?;
        }
        Ok(RamDisk {
            blocks,
            dirty: false,
        })
    }
}

impl Device for RamDisk {
    ghost told = { λ disk. Some disk.blocks.items };

    ghost size = { λ disk. length disk.blocks.items };

    ghost count = { λ disk. 0 };

    ghost lending = { λ disk. true };

    ghost lasting = { λ disk. if disk.dirty then None else Some disk.blocks.items };

    fn blocks(&self) -> u32 {
        self.blocks.len() as u32
    }

    fn read_into(&mut self, index: u32, out: &mut [u8]) -> Result<(), Failed> {
        Ok(out.copy_from_slice(self.blocks[index as usize].bytes()))
    }

    fn write(&mut self, index: u32, block: &[u8]) -> Result<(), Failed> {
        self.dirty = true;
        let place = &mut self.blocks[index as usize];
        Ok(place.bytes_mut().copy_from_slice(block))
    }

    fn flush(&mut self) -> Result<(), Failed> {
        self.dirty = false;
        Ok(())
    }

    fn lends(&self) -> bool {
        true
    }

    fn lend(&self, index: u32) -> Option<&[u8]> {
        Some(self.blocks[index as usize].bytes())
    }

    fn faults(&self) -> u64 {
        0
    }
}
