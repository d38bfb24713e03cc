ghost use Rattle.std.specs.Prelude.{true, None};

use crate::ram_disk::RamDisk;
use std::alloc::Global;
use volume_device::{MakeFault, Maker, Store};
use vss_names::Text;

/// Makes disks in memory, and drops each that comes back. No call of it fails but for want of memory.
#[derive(Drop)]
pub struct RamMaker {
    /// How many disks are out.
    pub out: u32,
}

impl Maker for RamMaker {
    type Made = RamDisk;

    ghost tells = { λ m store. true };

    ghost named = { λ m. None };

    ghost kept = { λ m. None };

    ghost places = { λ m. m.out };

    ghost count = { λ m. 0 };

    fn make(
        &mut self,
        alloc: Global,
        _store: &Store,
        _name: &Text,
        blocks: u32,
    ) -> Result<RamDisk, MakeFault> {
        let Some(out) = self.out.checked_add(1) else {
            return Err(MakeFault::OutOfMemory);
        };
        let disk = RamDisk::new(alloc, blocks)?;
        self.out = out;
        Ok(disk)
    }

    fn take_back(&mut self, _disk: RamDisk) {
        self.out = self.out.saturating_sub(1);
    }

    fn faults(&self) -> u64 {
        0
    }
}
