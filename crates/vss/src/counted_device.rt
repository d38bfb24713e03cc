ghost use Rattle.std.specs.Prelude.{◌≡◌};
ghost use Rattle.volume_device.specs.OnHost.{host_told, host_lasting, host_size, host_faults, host_lends};

use crate::progress::Progress;
use std::alloc::Global;
use std::sync::Arc;
use volume_device::{Device, HostDevice};
use vss_names::Failed;

/// A device of the host, of which each block that is read or lent is counted.
#[derive(Drop)]
pub struct CountedDevice {
    pub device: HostDevice,
    pub progress: Arc<Progress, Global>,
}

impl Device for CountedDevice {
    ghost told = { λ d. host_told d.device };

    ghost size = { λ d. host_size d.device };

    ghost count = { λ d. host_faults d.device };

    ghost lending = { λ d. host_lends d.device };

    ghost lasting = { λ d. host_lasting d.device };

    fn blocks(&self) -> u32 {
        self.device.blocks()
    }

    fn read_into(&mut self, index: u32, out: &mut [u8]) -> Result<(), Failed> {
        self.progress.count_block();
        self.device.read_into(index, out)
    }

    fn read_shared(&self, index: u32, out: &mut [u8]) -> bool {
        let is_read = self.device.read_shared(index, out);
        if is_read {
            self.progress.count_block();
        }
        is_read
    }

    fn write(&mut self, index: u32, block: &[u8]) -> Result<(), Failed> {
        self.device.write(index, block)
    }

    fn flush(&mut self) -> Result<(), Failed> {
        self.device.flush()
    }

    fn lends(&self) -> bool {
        self.device.lends()
    }

    fn lend(&self, index: u32) -> Option<&[u8]> {
        self.progress.count_block();
        self.device.lend(index)
    }

    fn faults(&self) -> u64 {
        self.device.faults()
    }
}
