//! The files of a new folder as a store.

ghost use Rattle.std.specs.Prelude.{◌≡◌, ◌≤◌, map, replicate, IfOk, IsTrue};
ghost use Rattle.diff_area.specs.Format.{AreVolumes, free};

use crate::device::{KeptSums, StoreDevice};
use crate::ended::by_device;
use crate::folder::{AREA, Folder};
use crate::job::Job;
use crate::opened::Files;
use crate::own_file::new_file;
use crate::parts::{part_name, text_of};
use crate::program::Program;
use crate::status::Status;
use block_data::BLOCK;
use diff_area::{Area, pages_for};
use image_store::{NewFault, Store};
use std::alloc::Global;
use std::fs::File;
use std::io;
use volume_device::{Device, FileCall, FileFault};
use vss_names::{MOST_BLOCKS, MOST_SLOTS, MOST_VOLUMES, OutOfMemory, Text};

/// A new file of so many zero blocks, or the call that failed.
pub fn new_blocks(
    program: &Program,
    path: &str,
    blocks: u32,
) -> Result<File, (FileCall, io::Error)> {
    let file = match new_file(program, path) {
        Ok(file) => file,
        Err(error) => return Err((FileCall::Create, error)),
    };
    match file.set_len(u64::from(blocks) * BLOCK as u64) {
        Ok(()) => Ok(file),
        Err(error) => Err((FileCall::SetLength, error)),
    }
}

/// A device over a new file of zeros. Its sums go to the folder's table from a place on, but for those of so many first blocks.
fn new_device(
    folder: &Folder,
    path: String,
    blocks: u32,
    first: usize,
    skipped: u32,
) -> Result<StoreDevice, Status>
    ensures { IfOk result (λ device. ⟦<StoreDevice as Device>⟧.size device ≡ blocks) }
{
    let (program, alloc) = (&folder.program, folder.program.alloc());
    match new_blocks(program, path.as_str(), blocks) {
        Ok(file) => {
            let sums = KeptSums::of_zeros(alloc, blocks, folder.table()?, first, skipped as usize)?;
            Ok(StoreDevice::new(path, Ok(file), blocks, Vec::new(alloc), sums)?)
        }
        Err((call, error)) => Err(by_device(program, Some(FileFault { path, call, error }))),
    }
}

/// Whether volumes may have so many blocks.
fn are_volumes(blocks: &[u32]) -> bool
    ensures { IsTrue result → AreVolumes blocks.now }
{
    if blocks.is_empty() || blocks.len() > MOST_VOLUMES as usize {
        return false;
    }
    blocks.iter().all(|one| 0 < *one && *one <= MOST_BLOCKS)
}

/// How many blocks there are in all.
pub fn sum_of(blocks: &[u32]) -> u64 {
    let mut sum = 0u64;
    for one in blocks {
        sum = sum.saturating_add(u64::from(*one));
    }
    sum
}

/// How many blocks the volumes have, if these are not too many.
pub fn blocks_of(program: &Program, jobs: &[Job<'_>]) -> Result<Vec<u32>, Status>
    ensures volumes { IfOk result (λ blocks. AreVolumes blocks.items) }
    ensures blocks { IfOk result (λ blocks. blocks.items ≡ map (λ job. job.input.blocks) jobs.now) }
{
    let blocks: Vec<u32> = jobs
        .iter()
        .map(|job| job.input.blocks)
        .collect(program.alloc())?;
    if are_volumes(&blocks) {
        return Ok(blocks);
    }
    let volumes = blocks.len();
    Err(ended!(*program, Refused; "volumes: {volumes}, at most {MOST_VOLUMES}"))
}

/// The new area of volumes of these numbers of blocks.
fn new_area(folder: &Folder, slots: u32, blocks: &[u32]) -> Result<Area<StoreDevice>, Status>
    requires few { slots ≤ MOST_SLOTS }
    requires volumes { AreVolumes blocks.now }
    ensures volumes { IfOk result (λ area. area.volumes ≡ blocks.now) }
    ensures records { IfOk result (λ area. area.records ≡ replicate slots free) }
{
    let (path, front) = (folder.path_of(AREA)?, 1 + pages_for(slots));
    let device = new_device(folder, path, front + slots, sum_of(blocks) as usize, front)?;
    match Area::open_new(folder.program.alloc(), device, slots, blocks) {
        Ok(area) => Ok(area),
        Err(_) => Err(Status::OutOfMemory),
    }
}

/// The name of the volume of a job.
fn name_of(alloc: Global, job: &Job<'_>) -> Result<Text, OutOfMemory> {
    part_name(alloc, job.input.name.as_bytes(), job.input.part.number)
}

/// The devices of the volumes, of zeros.
fn new_devices(folder: &Folder, jobs: &[Job<'_>]) -> Result<Vec<StoreDevice>, Status>
    ensures { IfOk result (λ devices. map ⟦<StoreDevice as Device>⟧.size devices.items ≡ map (λ job. job.input.blocks) jobs.now) }
{
    let mut devices = Vec::new(folder.program.alloc());
    let mut first = 0usize;
    for job in jobs {
        let name = name_of(folder.program.alloc(), job)?;
        let (path, blocks) = (folder.path_of_volume(text_of(&name))?, job.input.blocks);
        devices.push(new_device(folder, path, blocks, first, 0)?)?;
        first = first.saturating_add(blocks as usize);
    }
    Ok(devices)
}

/// The names of the volumes.
fn names_of(program: &Program, jobs: &[Job<'_>]) -> Result<Vec<Text>, Status> {
    let mut names = Vec::new(program.alloc());
    for job in jobs {
        names.push(name_of(program.alloc(), job)?)?;
    }
    Ok(names)
}

/// The new store of these volumes, of zeros.
pub fn new_store(folder: &Folder, slots: u32, jobs: &[Job<'_>]) -> Result<Files, Status>
    requires { slots ≤ MOST_SLOTS }
{
    let blocks = blocks_of(&folder.program, jobs)?;
    let names = names_of(&folder.program, jobs)?;
    let devices = new_devices(folder, jobs)?;
    let area = new_area(folder, slots, &blocks)?;
    match Store::new(folder.program.alloc(), devices, area, names) {
        Ok(store) => Ok(store),
        Err(NewFault::Names) => Err(Status::DeviceFault),
        Err(NewFault::OutOfMemory) => Err(Status::OutOfMemory),
    }
}
