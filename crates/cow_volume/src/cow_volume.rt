ghost use Rattle.std.specs.Prelude.{◌≡◌, ◌<◌, ◌≤◌, ◌++◌, ◌∷◌, [], true, Some, length, replicate, slice_get, is_some, All, IfOk, IfErr, IfSome, OnOk};
ghost use Rattle.block_data.specs.BlockBytes.{zeros, payload_bytes};
ghost use Rattle.write_history.specs.History.{History, fresh, cut};
ghost use Rattle.write_history.specs.Slots.{used, used_by};
ghost use Rattle.diff_area.specs.Format.{free};
ghost use Rattle.diff_map.specs.Copies.{AreImages};
ghost use Rattle.cow_volume.specs.Ending.{IsSync, IsTable};
ghost use Rattle.cow_volume.specs.Calls.{IsQuiet, IsUnfailed, VolumeRose, is_among};
ghost use Rattle.cow_volume.specs.Parts.{IsUnseen};
ghost use Rattle.cow_volume.specs.Resuming.{AllHaveImages, IsResumeFault, IsOneKept, NoneTell};
ghost use Rattle.cow_volume.specs.OneVolume.{StandsForOne, blocks_of, image_sets, tells, IsOneWrite, IsOneCopiedOnce, IsOneNow, IsOneShown, HasOneCause, HasOneImageCause, IsOneLentBy, IsOneDropped, IsOneRevert, IsOneSync};

use crate::cause::Cause;
use crate::cow_group::CowGroup;
use crate::image_fault::ImageFault;
use crate::resume_fault::ResumeFault;
use crate::revert_fault::RevertFault;
use crate::write_fault::WriteFault;
use crate::written::Written;
use block_data::{BLOCK, Payload};
use diff_area::Area;
use std::alloc::Global;
use std::marker::Model;
use volume_device::Device;
use vss_names::{Numbers, OutOfMemory};

/// A copy-on-write volume by itself, with a diff area of its own, and the images that stand of it. Contracts see its device, its
/// area, and the sets of its images.
#[derive(Drop)]
pub struct CowVolume<D: Device> {
    group: CowGroup<D>,
}

impl<D: Device> Model for CowVolume<D> {
    ghost use Rattle.std.specs.Prelude.{◌≡◌, length};
    ghost use Rattle.cow_volume.specs.StandsFor.{GroupValue};

    ghost Value = { GroupValue D };

    ghost view = { λ v. v.group };

    ghost invariant = { λ v. length v.group.area.volumes ≡ 1 };
}

impl<D: Device> CowVolume<D> {
    /// A volume of zeros, without images. It takes all memory that the volume ever needs.
    pub fn new(alloc: Global, device: D, area: Area<D>) -> Result<CowVolume<D>, OutOfMemory>
        requires fits { area.volumes ≡ D.size device ∷ [] }
        requires free { area.records ≡ replicate (length area.records) free }
        requires zeros { IfSome (D.told device) (λ blocks. blocks ≡ replicate (D.size device) zeros) }
        ensures value { IfOk result (λ volume. volume ≡ record { devices = device ∷ []; area = area; images = [] ∷ [] }) }
        ensures stands { IfOk result (λ volume. StandsForOne D.told volume fresh) }
    {
        let devices = one_device(alloc, device)?;
        let group = CowGroup::new(alloc, devices, area)?;
        Ok(CowVolume { group })
    }

    /// Takes a volume up again: its device, its area, and the sets of its images, the oldest first. The first slot whose copy is of
    /// no such image refuses that. No device is read. It takes all memory that the volume ever needs. Where no device tells what it
    /// holds, the volume stands for some history with these records and images.
    pub fn resume(
        alloc: Global,
        device: D,
        area: Area<D>,
        images: Numbers,
    ) -> Result<CowVolume<D>, ResumeFault>
        requires fits { area.volumes ≡ D.size device ∷ [] }
        requires rise { AreImages images }
        ensures value { IfOk result (λ volume. volume ≡ record { devices = device ∷ []; area = area; images = images ∷ [] }) }
        ensures stands { IfOk result (λ volume. (h : History) → IsOneKept D.told device area images h → StandsForOne D.told volume h) }
        ensures untold { IfOk result (λ volume. NoneTell D.told (device ∷ []) area.device → (h : History) × StandsForOne D.told volume h) }
        ensures have_images { OnOk result (AllHaveImages area.records (images ∷ [])) }
        ensures refused { IfErr result (IsResumeFault area.records (images ∷ [])) }
    {
        let Ok(devices) = one_device(alloc, device) else {
            return Err(ResumeFault::OutOfMemory);
        };
        let group = CowGroup::resume(alloc, devices, area, &[images])?;
        Ok(CowVolume { group })
    }

    /// The volume of a group that has no other.
    pub fn of(group: CowGroup<D>) -> CowVolume<D>
        requires { length group.area.volumes ≡ 1 }
        ensures { result ≡ group }
    {
        CowVolume { group }
    }

    /// The volume as a group of its own.
    pub fn into_group(self) -> CowGroup<D>
        ensures group { result ≡ self }
        ensures one { length result.area.volumes ≡ 1 }
    {
        self.group
    }

    /// How many slots the area has.
    pub fn slots(&self) -> u32
        ensures { result ≡ length self.now.area.records }
    {
        self.group.slots()
    }

    /// How many blocks the volume has.
    pub fn blocks(&self) -> u32
        ensures { result ≡ blocks_of self.now }
    {
        self.group.blocks(0)
    }

    /// The sets of the images, the oldest first.
    pub fn images(&self) -> &[u32]
        ensures images { result.now ≡ image_sets self.now }
        ensures few { length result.now ≤ 512 }
        ensures rise { AreImages result.now }
    {
        self.group.images(0)
    }

    /// How many slots the images use.
    pub fn used(&self) -> u32
        ensures { (h : History) → StandsForOne D.told self.now h → result ≡ used (blocks_of self.now) h.writes h.images }
    {
        self.group.used(0)
    }

    /// How many slots the image of a set uses; None where no such image stands.
    pub fn used_by(&self, set: u32) -> Option<u32>
        ensures { (h : History) → StandsForOne D.told self.now h → result ≡ used_by (blocks_of self.now) h.writes h.images set }
    {
        self.group.used_by(0, set)
    }

    /// An image is cut, the newest.
    pub fn cut(&mut self, set: u32)
        requires room { length (image_sets self.old) < 512 }
        requires above_zero { 0 < set }
        requires newest { All (λ s. s < set) (image_sets self.old) }
        ensures devices { self.new.devices ≡ self.old.devices }
        ensures area { self.new.area ≡ self.old.area }
        ensures images { image_sets self.new ≡ image_sets self.old ++ set ∷ [] }
        ensures stands { (h : History) → StandsForOne D.told self.old h → StandsForOne D.told self.new (cut set h) }
    {
        let _valid = self.group.volumes();
        self.group.cut(0, set);
    }

    /// Reads a block as it is into `out`, which after a failed read holds any bytes.
    pub fn read_into(&mut self, block: u32, out: &mut [u8]) -> Result<(), Cause>
        requires { length out.old ≡ BLOCK }
        ensures in_range { OnOk result (block < blocks_of self.old) }
        ensures now { OnOk result (IsOneNow D.told self.old block out.new) }
        ensures same { OnOk result (IsUnfailed D.count self.old self.new) }
        ensures cause { IfErr result (HasOneCause D.count block self.old self.new) }
        ensures quiet { IsQuiet D.Device self.old self.new }
        ensures stands { (h : History) → StandsForOne D.told self.old h → StandsForOne D.told self.new h }
    {
        let _valid = self.group.volumes();
        match self.group.read_into(0, None, block, out) {
            Ok(()) => Ok(()),
            Err(fault) => Err(fault.cause()),
        }
    }

    /// Reads a block as the image of a set shows it into `out`, which after a failed read holds any bytes.
    pub fn read_image_into(
        &mut self,
        set: u32,
        block: u32,
        out: &mut [u8],
    ) -> Result<(), ImageFault>
        requires { length out.old ≡ BLOCK }
        ensures image { OnOk result (is_among set (image_sets self.old) ≡ true) }
        ensures in_range { OnOk result (block < blocks_of self.old) }
        ensures shown { OnOk result (IsOneShown D.told self.old set block out.new) }
        ensures same { OnOk result (IsUnfailed D.count self.old self.new) }
        ensures cause { IfErr result (HasOneImageCause D.count set block self.old self.new) }
        ensures quiet { IsQuiet D.Device self.old self.new }
        ensures stands { (h : History) → StandsForOne D.told self.old h → StandsForOne D.told self.new h }
    {
        let _valid = self.group.volumes();
        self.group.read_into(0, Some(set), block, out)
    }

    /// Lends a block as it is, in place. None where the volume's device does not lend.
    pub fn lend_block(&self, block: u32) -> Option<&[u8]>
        requires { block < blocks_of self.now }
        ensures now { IfSome result (λ bytes. IsOneNow D.told self.now block bytes.now) }
        ensures whole { IfSome result (λ bytes. length bytes.now ≡ BLOCK) }
        ensures lends { (d : D) → slice_get self.now.devices 0 ≡ Some d → is_some result ≡ D.lending d }
    {
        let _valid = self.group.volumes();
        let Ok(lent) = self.group.lend(0, None, block) else {
            unreachable!();
        };
        lent
    }

    /// Lends a block as the image of a set shows it, in place. None where the device that has it does not lend.
    pub fn lend_image(&self, set: u32, block: u32) -> Result<Option<&[u8]>, ImageFault>
        ensures image { OnOk result (is_among set (image_sets self.now) ≡ true) }
        ensures in_range { OnOk result (block < blocks_of self.now) }
        ensures shown { IfOk result (λ lent. IfSome lent (λ bytes. IsOneShown D.told self.now set block bytes.now)) }
        ensures whole { IfOk result (λ lent. IfSome lent (λ bytes. length bytes.now ≡ BLOCK)) }
        ensures lends { IfOk result (λ lent. IsOneLentBy D.lending self.now set block (is_some lent)) }
        ensures unseen { IfErr result (IsUnseen (image_sets self.now) (blocks_of self.now) (Some set) block) }
    {
        let _valid = self.group.volumes();
        self.group.lend(0, Some(set), block)
    }

    /// Writes a block. Where its old bytes need a slot for a copy and none is free, the oldest images go first, until one is. The
    /// old bytes are copied into the lowest free slot, and then the block is overwritten; a fault in either gives the slot back.
    pub fn write(&mut self, block: u32, payload: &Payload) -> Result<Written, WriteFault>
        ensures write { IsOneWrite D.Device self.old self.new (record { block = block; bytes = payload_bytes payload.now }) result }
        ensures once { IsOneCopiedOnce D.told self.old self.new block }
    {
        self.group.write(0, block, payload)
    }

    /// The image of a set goes. Its copies go to the next older image, where that lacks them.
    pub fn drop_image(&mut self, set: u32) -> Result<(), ImageFault>
        ensures { IsOneDropped D.Device self.old self.new set result }
    {
        self.group.drop_image(0, set)
    }

    /// Brings the volume back to the image of a set, which stays; the newer images go. The blocks that were written since then
    /// are restored in ascending order.
    pub fn revert(&mut self, set: u32) -> Result<(), RevertFault>
        ensures { IsOneRevert D.Device self.old self.new set result }
    {
        self.group.revert(0, set)
    }

    /// Brings all accepted writes of the volume to where they last.
    pub fn flush(&mut self) -> Result<(), Cause>
        ensures quiet { IsQuiet D.Device self.old self.new }
        ensures stands { (h : History) → StandsForOne D.told self.old h → StandsForOne D.told self.new h }
        ensures same { OnOk result (IsUnfailed D.count self.old self.new) }
        ensures lasts { OnOk result ((d : D) → slice_get self.new.devices 0 ≡ Some d → D.lasting d ≡ D.told d) }
        ensures cause { IfErr result (λ cause. cause ≡ Cause.Volume) }
        ensures rose { IfErr result (λ cause. VolumeRose D.count 0 self.old self.new) }
    {
        self.group.flush(0)
    }

    /// Writes the records of the copies to the area's device, and brings all that was written to it to where it lasts.
    pub fn sync(&mut self) -> Result<(), Cause>
        ensures lasts { OnOk result (D.lasting self.new.area.device ≡ D.told self.new.area.device) }
        ensures table { IsTable D.told self.old self.new result }
        ensures sync { IsOneSync D.Device self.old self.new result }
        ensures of_group { IsSync D.Device self.old self.new result }
    {
        let _valid = self.group.volumes();
        self.group.sync()
    }

    /// The device and the area, as they are.
    pub fn into_parts(self) -> (D, Area<D>)
        ensures device { self.devices ≡ result.0 ∷ [] }
        ensures area { result.1 ≡ self.area }
        ensures fits { result.1.volumes ≡ D.size result.0 ∷ [] }
    {
        let CowVolume { group } = self;
        let _valid = group.volumes();
        let (mut devices, area) = group.into_parts();
        let Some(device) = devices.pop() else {
            unreachable!();
        };
        (device, area)
    }
}

/// A list of one device.
fn one_device<D: Device>(alloc: Global, device: D) -> Result<Vec<D>, OutOfMemory>
    ensures { IfOk result (λ devices. devices.items ≡ device ∷ []) }
{
    let mut devices = Vec::with_capacity(alloc, 1)?;
    devices.push(device)?;
    Ok(devices)
}
