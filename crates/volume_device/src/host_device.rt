use crate::device::Device;
use crate::file_device::FileDevice;
use crate::mem_device::MemDevice;
use vss_names::Failed;

/// A device of the host that the program runs on.
#[derive(Debug, Drop)]
pub enum HostDevice {
    Memory(MemDevice),
    File(FileDevice),
}

impl Device for HostDevice {
    ghost use Rattle.volume_device.specs.OnHost.{host_told, host_lasting, host_size, host_faults, host_lends};

    ghost told = { host_told };

    ghost size = { host_size };

    ghost count = { host_faults };

    ghost lending = { host_lends };

    ghost lasting = { host_lasting };

    fn blocks(&self) -> u32 {
        match self {
            HostDevice::Memory(device) => device.blocks(),
            HostDevice::File(device) => device.blocks(),
        }
    }

    fn read_into(&mut self, index: u32, out: &mut [u8]) -> Result<(), Failed> {
        match self {
            HostDevice::Memory(device) => device.read_into(index, out),
            HostDevice::File(device) => device.read_into(index, out),
        }
    }

    fn read_shared(&self, index: u32, out: &mut [u8]) -> bool {
        match self {
            HostDevice::Memory(device) => device.read_shared(index, out),
            HostDevice::File(device) => device.read_shared(index, out),
        }
    }

    fn write(&mut self, index: u32, block: &[u8]) -> Result<(), Failed> {
        match self {
            HostDevice::Memory(device) => device.write(index, block),
            HostDevice::File(device) => device.write(index, block),
        }
    }

    fn flush(&mut self) -> Result<(), Failed> {
        match self {
            HostDevice::Memory(device) => device.flush(),
            HostDevice::File(device) => device.flush(),
        }
    }

    fn lends(&self) -> bool {
        match self {
            HostDevice::Memory(device) => device.lends(),
            HostDevice::File(device) => device.lends(),
        }
    }

    fn lend(&self, index: u32) -> Option<&[u8]> {
        match self {
            HostDevice::Memory(device) => device.lend(index),
            HostDevice::File(device) => device.lend(index),
        }
    }

    fn faults(&self) -> u64 {
        match self {
            HostDevice::Memory(device) => device.faults(),
            HostDevice::File(device) => device.faults(),
        }
    }
}
