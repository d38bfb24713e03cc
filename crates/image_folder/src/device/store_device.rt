ghost use Rattle.std.specs.Prelude.{◌≡◌, ◌≤◌, ◌+◌, ◌*◌, length, IfOk, IfSome, OnErr, OnOk};
ghost use Rattle.vss_names.specs.Faults.{HasCause};
ghost use Rattle.image_folder.specs.KeptSums.{sum_of, IsAfterRead, IsGiven, KeepsSum, Gives};

use crate::device::block_sum::BlockSum;
use crate::device::kept_sums::KeptSums;
use crate::device::lost::Lost;
use block_data::BLOCK;
use std::alloc::AllocError;
use std::fs::File;
use volume_device::{Device, FileDevice, FileFault};
use vss_names::Failed;

/// The device of a volume or of the area of a folder: a file, and for the area the first blocks as the state has them, which count in place
/// of those of the file. It keeps the sum of each block, and gives none that has another. It tells nothing and lends nothing.
#[derive(Drop)]
pub struct StoreDevice {
    path: String,
    file: Result<FileDevice, Lost>,
    blocks: u32,
    front: Vec<u8>,
    sums: KeptSums,
    count: u64,
    /// The block that had another sum than is kept.
    other: Option<u32>,
}

impl StoreDevice {
    /// A device over a file of so many blocks, or over one that is lost, of which each call fails. The front may be of no blocks, and is kept in
    /// memory.
    pub fn new(
        path: String,
        file: Result<File, Lost>,
        blocks: u32,
        front: Vec<u8>,
        sums: KeptSums,
    ) -> Result<StoreDevice, AllocError>
        ensures size { IfOk result (λ device. ⟦<StoreDevice as Device>⟧.size device ≡ blocks) }
        ensures sums { IfOk result (λ device. device.sums ≡ sums) }
    {
        let file = match file {
            Ok(file) => Ok(FileDevice::new(file, path.clone()?, blocks)),
            Err(lost) => Err(lost),
        };
        Ok(StoreDevice {
            path,
            file,
            blocks,
            front,
            sums,
            count: 0,
            other: None,
        })
    }

    /// The path of its file.
    pub fn path(&self) -> &str {
        self.path.as_str()
    }

    /// The first blocks of the area, as the state has them. They are none for a volume.
    pub fn front(&self) -> &[u8]
        ensures { result.now ≡ self.now.front.items }
    {
        &self.front
    }

    /// Whether no image has what is at a block.
    pub fn is_free(&self, index: u32) -> bool {
        self.sums.is_free(index)
    }

    /// The block that had another sum than is kept.
    pub fn other_sum(&self) -> Option<u32> {
        self.other
    }

    /// Why its file is lost, if a call on it failed for that.
    pub fn lost(&self) -> Option<Lost> {
        match &self.file {
            Err(lost) if self.count > 0 => Some(*lost),
            _ => None,
        }
    }

    /// The last failed call on its file.
    pub fn into_fault(self) -> Option<FileFault> {
        let StoreDevice { file, .. } = self;
        match file {
            Ok(file) => file.into_fault(),
            Err(_) => None,
        }
    }

    /// Where a block begins in the front, if it is of it.
    fn place_in_front(&self, index: u32) -> Option<usize>
        ensures within { IfSome result (λ place. place + BLOCK ≤ length self.now.front.items) }
        ensures place { IfSome result (λ place. place ≡ index * BLOCK) }
    {
        let place = index as usize * BLOCK;
        if place + BLOCK <= self.front.len() {
            return Some(place);
        }
        None
    }

    /// A call that failed is counted.
    fn outcome(&mut self, done: Result<(), Failed>) -> Result<(), Failed>
        ensures sums { self.new.sums ≡ self.old.sums }
        ensures front { self.new.front ≡ self.old.front }
        ensures blocks { self.new.blocks ≡ self.old.blocks }
        ensures cause { HasCause self.old.count self.new.count result }
        ensures done { result ≡ done }
    {
        if done.is_err() {
            self.count = self.count.saturating_add(1);
        }
        done
    }

    /// Reads a block of its file, whatever its sum.
    fn read_file(&mut self, index: u32, out: &mut [u8]) -> Result<(), Failed>
        requires whole { length out.old ≡ BLOCK }
        ensures sums { self.new.sums ≡ self.old.sums }
        ensures front { self.new.front ≡ self.old.front }
        ensures blocks { self.new.blocks ≡ self.old.blocks }
        ensures cause { HasCause self.old.count self.new.count result }
    {
        let done = match &mut self.file {
            Ok(file) if index < file.blocks() => file.read_into(index, out),
            _ => Err(Failed),
        };
        self.outcome(done)
    }

    /// That a block that was read is given: it has its sum, or it is loose.
    fn check(&mut self, index: u32, block: &[u8]) -> Result<(), Failed>
        requires whole { length block.now ≡ BLOCK }
        ensures given { OnOk result (IsGiven self.old.sums index (sum_of block.now)) }
        ensures kept { IsAfterRead self.old.sums self.new.sums index (sum_of block.now) }
        ensures front { self.new.front ≡ self.old.front }
        ensures blocks { self.new.blocks ≡ self.old.blocks }
        ensures cause { HasCause self.old.count self.new.count result }
    {
        if self.sums.gives(index, BlockSum::of(block)) {
            return Ok(());
        }
        self.other = Some(index);
        self.outcome(Err(Failed))
    }

    /// Reads a block of its file, and keeps its sum.
    pub fn adopt(&mut self, index: u32, out: &mut [u8]) -> Result<(), Failed>
        requires whole { length out.old ≡ BLOCK }
        ensures kept { OnOk result (KeepsSum self.old.sums self.new.sums index (sum_of out.new)) }
        ensures same { OnErr result (self.new.sums ≡ self.old.sums) }
        ensures size { ⟦<StoreDevice as Device>⟧.size self.new ≡ ⟦<StoreDevice as Device>⟧.size self.old }
    {
        self.read_file(index, out)?;
        self.sums.keep(index, BlockSum::of(out));
        Ok(())
    }
}

impl Device for StoreDevice {
    ghost use Rattle.std.specs.Prelude.{None, false};

    ghost told = { λ d. None };

    ghost size = { λ d. d.blocks };

    ghost count = { λ d. d.count };

    ghost lending = { λ d. false };

    ghost lasting = { λ d. None };

    fn blocks(&self) -> u32 {
        self.blocks
    }

    fn read_into(&mut self, index: u32, out: &mut [u8]) -> Result<(), Failed>
        requires whole { length out.old ≡ BLOCK }
        ensures gives { OnOk result (Gives self.old index out.new) }
        ensures kept { IsAfterRead self.old.sums self.new.sums index (sum_of out.new) }
        ensures size { self.new.blocks ≡ self.old.blocks }
        ensures cause { HasCause self.old.count self.new.count result }
    {
        if let Some(place) = self.place_in_front(index) {
            out.copy_from_slice(&self.front[place..place + BLOCK]);
            return Ok(());
        }
        self.read_file(index, out)?;
        self.check(index, out)
    }

    fn write(&mut self, index: u32, block: &[u8]) -> Result<(), Failed>
        requires whole { length block.now ≡ BLOCK }
        ensures kept { OnOk result (KeepsSum self.old.sums self.new.sums index (sum_of block.now)) }
        ensures same { OnErr result (self.new.sums ≡ self.old.sums) }
        ensures size { self.new.blocks ≡ self.old.blocks }
        ensures cause { HasCause self.old.count self.new.count result }
    {
        let done = match &mut self.file {
            Ok(file) if index < file.blocks() => file.write(index, block),
            _ => Err(Failed),
        };
        self.outcome(done)?;
        if let Some(place) = self.place_in_front(index) {
            self.front[place..place + BLOCK].copy_from_slice(block);
        }
        self.sums.keep(index, BlockSum::of(block));
        Ok(())
    }

    fn flush(&mut self) -> Result<(), Failed>
        ensures same { self.new.sums ≡ self.old.sums }
        ensures size { self.new.blocks ≡ self.old.blocks }
        ensures cause { HasCause self.old.count self.new.count result }
    {
        let done = match &mut self.file {
            Ok(file) => file.flush(),
            Err(_) => Err(Failed),
        };
        self.outcome(done)
    }

    fn lends(&self) -> bool {
        false
    }

    fn lend(&self, _index: u32) -> Option<&[u8]> {
        None
    }

    fn faults(&self) -> u64 {
        self.count
    }
}
