ghost use Rattle.std.specs.Prelude.{◌≡◌, [], length, Some, true};
ghost use Rattle.volume_device.specs.InMemory.{blocks_of, lasting_of, reads_of, writes_of, flushes_of};

use volume_device::{Device, MemDevice};
use vss_names::Failed;

/// A device in memory of which no call ever fails, and which tells and lends its blocks.
#[derive(Debug, Drop)]
pub struct SureDevice {
    device: MemDevice,
    ghost reads: { (reads_of device).failing ≡ [] },
    ghost writes: { (writes_of device).failing ≡ [] },
    ghost flushes: { (flushes_of device).failing ≡ [] },
}

impl SureDevice {
    /// The device, none of whose calls is planned to fail.
    pub(crate) fn of(device: MemDevice) -> SureDevice
        requires reads { (reads_of device).failing ≡ [] }
        requires writes { (writes_of device).failing ≡ [] }
        requires flushes { (flushes_of device).failing ≡ [] }
        ensures { result.device ≡ device }
    {
        SureDevice { device }
    }

    pub(crate) fn into_inner(self) -> MemDevice {
        self.device
    }
}

impl Device for SureDevice {
    ghost told = { λ d. Some (blocks_of d.device) };

    ghost size = { λ d. length (blocks_of d.device) };

    ghost count = { λ d. 0 };

    ghost lending = { λ d. true };

    ghost lasting = { λ d. lasting_of d.device };

    fn blocks(&self) -> u32 {
        self.device.blocks()
    }

    fn read_into(&mut self, index: u32, out: &mut [u8]) -> Result<(), Failed> {
        match self.device.read_into(index, out) {
            Ok(()) => Ok(()),
            Err(Failed) => unreachable!(),
        }
    }

    fn write(&mut self, index: u32, block: &[u8]) -> Result<(), Failed> {
        match self.device.write(index, block) {
            Ok(()) => Ok(()),
            Err(Failed) => unreachable!(),
        }
    }

    fn flush(&mut self) -> Result<(), Failed> {
        match self.device.flush() {
            Ok(()) => Ok(()),
            Err(Failed) => unreachable!(),
        }
    }

    fn lends(&self) -> bool {
        self.device.lends()
    }

    fn lend(&self, index: u32) -> Option<&[u8]> {
        self.device.lend(index)
    }

    fn faults(&self) -> u64 {
        0
    }
}
