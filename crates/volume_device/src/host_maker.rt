ghost use Rattle.std.specs.Prelude.{◌≡◌, ◌≤◌, None, IfOk, OnOk, IsErrOf};
ghost use Rattle.vss_names.specs.Faults.{Rose};
ghost use Rattle.volume_device.specs.OnHost.{host_maker_faults, devices_out};
ghost use Rattle.volume_device.specs.Messages.{is_memory};

use crate::device::Device;
use crate::file_device::FileDevice;
use crate::file_fault::FileFault;
use crate::host_device::HostDevice;
use crate::made_file::MadeFile;
use crate::make_fault::MakeFault;
use crate::maker::Maker;
use crate::mem_device::MemDevice;
use crate::store::Store;
use std::alloc::{AllocError, Global};
use std::{io, str};
use vss_names::Text;

/// Makes the devices of the host: in memory, or as new files in a folder. It keeps none of those that it gets back, but of those in files the
/// last failed call.
#[derive(Drop)]
pub struct HostMaker {
    rt: HostRuntime,
    files: Vec<MadeFile>,
    failed: Vec<FileFault>,
    out: u64,
    count: u64,
}

/// The path of a file in a folder, or none where these are no texts.
fn path_in(alloc: Global, folder: &Text, name: &Text) -> Result<Option<String>, AllocError> {
    let Ok(folder) = str::from_utf8(folder.bytes()) else {
        return Ok(None);
    };
    let Ok(name) = str::from_utf8(name.bytes()) else {
        return Ok(None);
    };
    let mut path = String::from_str(alloc, folder)?;
    path.push('/')?;
    path.push_str(name)?;
    Ok(Some(path))
}

/// Keeps which file a device is over, and a place for its last failed call.
fn keep(
    device: &FileDevice,
    files: &mut Vec<MadeFile>,
    failed: &mut Vec<FileFault>,
) -> io::Result<()> {
    files.push(device.made()?)?;
    failed.reserve(files.len())?;
    Ok(())
}

/// Keeps a failed call, if there was one.
fn note(failed: &mut Vec<FileFault>, fault: Option<FileFault>) {
    if let Some(fault) = fault {
        let _ = failed.push(fault);
    }
}

impl HostMaker {
    /// A maker of devices of this host, none of which is out.
    pub fn new(rt: HostRuntime) -> HostMaker
        ensures faults { host_maker_faults result ≡ 0 }
        ensures places { devices_out result ≡ 0 }
    {
        HostMaker {
            files: Vec::new(rt.alloc()),
            failed: Vec::new(rt.alloc()),
            rt,
            out: 0,
            count: 0,
        }
    }

    /// Of each file that could not be made, or whose device was given back after a failed call: the last failed call.
    pub fn failed_calls(&self) -> &[FileFault] {
        &self.failed
    }

    /// Removes the files that it made, each unless another file has its name by now.
    pub fn remove_files(&self) {
        for file in self.files.iter() {
            file.remove(&self.rt);
        }
    }

    /// A device in a new file of a folder.
    fn make_file(
        &mut self,
        alloc: Global,
        folder: &Text,
        name: &Text,
        blocks: u32,
    ) -> Result<FileDevice, MakeFault>
        ensures size { IfOk result (λ device. ⟦<FileDevice as Device>⟧.size device ≡ blocks) }
        ensures fresh { IfOk result (λ device. ⟦<FileDevice as Device>⟧.count device ≡ 0) }
        ensures out { self.new.out ≡ self.old.out }
        ensures later { self.old.count ≤ self.new.count }
        ensures same { OnOk result (self.new.count ≡ self.old.count) }
        ensures unmade { IsErrOf result MakeFault.OutOfMemory → self.new.count ≡ self.old.count }
        ensures rose { IsErrOf result MakeFault.Failed → Rose self.old.count self.new.count }
    {
        let Ok(path) = path_in(alloc, folder, name) else {
            return Err(MakeFault::OutOfMemory);
        };
        let Some(path) = path else {
            self.count = self.count.saturating_add(1);
            return Err(MakeFault::Failed);
        };
        match FileDevice::create(&self.rt, path, blocks) {
            Ok(device) => {
                if keep(&device, &mut self.files, &mut self.failed).is_err() {
                    device.remove(&self.rt);
                    return Err(MakeFault::OutOfMemory);
                }
                Ok(device)
            }
            Err(fault) => {
                note(&mut self.failed, Some(fault));
                self.count = self.count.saturating_add(1);
                Err(MakeFault::Failed)
            }
        }
    }
}

impl Maker for HostMaker {
    type Made = HostDevice;

    ghost tells = { λ m store. is_memory store };

    ghost named = { λ m. None };

    ghost kept = { λ m. None };

    ghost places = { devices_out };

    ghost count = { host_maker_faults };

    fn make(
        &mut self,
        alloc: Global,
        store: &Store,
        name: &Text,
        blocks: u32,
    ) -> Result<HostDevice, MakeFault> {
        let Some(out) = self.out.checked_add(1) else {
            return Err(MakeFault::OutOfMemory);
        };
        let device = match store {
            Store::Memory => HostDevice::Memory(MemDevice::new(alloc, blocks)?),
            Store::Folder(folder) => HostDevice::File(self.make_file(alloc, folder, name, blocks)?),
        };
        self.out = out;
        Ok(device)
    }

    fn take_back(&mut self, device: HostDevice) {
        self.count = self.count.saturating_add(device.faults());
        self.out = self.out.saturating_sub(1);
        match device {
            HostDevice::Memory(memory) => drop(memory),
            HostDevice::File(file) => note(&mut self.failed, file.into_fault()),
        }
    }

    fn faults(&self) -> u64 {
        self.count
    }
}
