//! Your own device: a copy-on-write volume over a `Device` that this crate makes.

use crate::ram_disk::RamDisk;
use crate::ram_maker::RamMaker;
use anyhow::{Result, ensure};
use block_data::{BlockBuf, Payload};
use cow_volume::CowVolume;
use diff_area::{Area, pages_for};
use volume_device::{Device, Maker, Store};
use vss_names::{Numbers, Text};

/// A volume of 8 zero blocks on one disk, with 4 slots for old blocks on another, and its image of set 1.
fn new_volume(rt: &HostRuntime) -> Result<CowVolume<RamDisk>> {
    let under = RamDisk::new(rt.alloc(), 1 + pages_for(4) + 4)?;
    let area = Area::open_new(rt.alloc(), under, 4, &[8]).map_err(|unopened| unopened.fault)?;
    let mut volume = CowVolume::new(rt.alloc(), RamDisk::new(rt.alloc(), 8)?, area)?;
    volume.cut(1);
    Ok(volume)
}

/// Overwrites a block, and prints what the volume and the image have.
fn overwrite(rt: &HostRuntime, volume: &mut CowVolume<RamDisk>, out: &mut BlockBuf) -> Result<()> {
    volume.write(3, &Payload::Fill(7))?;
    volume.read_into(3, out.bytes_mut())?;
    println!(rt; "the volume has {}", out.bytes()[0])?;
    volume.read_image_into(1, 3, out.bytes_mut())?;
    Ok(println!(rt; "the image has {}", out.bytes()[0])?)
}

/// The volume, taken up again from its two disks with the list of its images.
fn taken_up(rt: &HostRuntime, disk: RamDisk, under: RamDisk) -> Result<CowVolume<RamDisk>> {
    let area = Area::load(rt.alloc(), under).map_err(|unopened| unopened.fault)?;
    ensure!(area.volumes() == 1, "an area of several volumes");
    ensure!(area.blocks(0) == disk.blocks(), "an area of another volume");
    Ok(CowVolume::resume(rt.alloc(), disk, area, Numbers::copy(rt.alloc(), &[1])?)?)
}

/// Has a disk made by name, as a run does, and gives it back.
fn make_one(rt: &HostRuntime) -> Result<()> {
    let mut maker = RamMaker { out: 0 };
    let name = Text::copy(rt.alloc(), b"C.vol")?;
    let disk = maker.make(rt.alloc(), &Store::Memory, &name, 8)?;
    println!(rt; "the maker made {} blocks", disk.blocks())?;
    Ok(maker.take_back(disk))
}

/// Cuts, overwrites, syncs and takes up again a volume, and has a disk made.
pub fn try_device(rt: &HostRuntime) -> Result<()> {
    let mut out = BlockBuf::zeroed(rt.alloc())?;
    let mut volume = new_volume(rt)?;
    overwrite(rt, &mut volume, &mut out)?;
    volume.flush()?;
    volume.sync()?;
    let (disk, area) = volume.into_parts();
    let mut volume = taken_up(rt, disk, area.into_device())?;
    volume.read_image_into(1, 3, out.bytes_mut())?;
    println!(rt; "taken up again, the image has {}", out.bytes()[0])?;
    make_one(rt)
}
