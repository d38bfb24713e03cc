ghost use Rattle.std.specs.Prelude.{ℕ, ◌≡◌, ◌≢◌, ◌<◌, ◌≤◌, ◌*◌, ◌++◌, ◌∷◌, List, [], true, false, Some, length, replicate, map, slice_get, slice_set, is_some, vec_capacity, All, IfOk, IfErr, IfSome, OnOk};
ghost use Rattle.block_data.specs.BlockBytes.{zeros, payload_bytes};
ghost use Rattle.write_history.specs.History.{History, fresh, cut};
ghost use Rattle.write_history.specs.Slots.{used, used_by, group_used};
ghost use Rattle.diff_area.specs.Format.{blocks_for, free, used_in, AreRecords, AreVolumes};
ghost use Rattle.volume_device.specs.InMemory.{AreBlocks};
ghost use Rattle.diff_map.specs.Copies.{AreImages};
ghost use Rattle.cow_volume.specs.StandsFor.{placed, StandsFor};
ghost use Rattle.cow_volume.specs.Calls.{HasImageCause, IsSeen, IsQuiet, IsUnfailed, IsWrite, IsDropped, IsRevert, StopsAfter, NeverFails, counted_as, IsEvicted, VolumeRose, history_at, changed_at, is_there, sets_at, blocks_at};
ghost use Rattle.cow_volume.specs.Parts.{IsLentBy, IsUnseen};
ghost use Rattle.cow_volume.specs.Ending.{IsSync, IsTable};
ghost use Rattle.cow_volume.specs.Resuming.{AllHaveImages, IsResumeFault, AreKept, NoneTell};
ghost use Rattle.cow_volume.specs.Room.{HasRoom, lacks_copy, lacks_slot, is_full, images_going};
ghost use Rattle.cow_volume.specs.Steps.{IsPutOr};
ghost use Rattle.cow_volume.specs.CopiesAfter.{IsAreaPut, IsCopiedOnce};

use crate::cause::Cause;
use crate::copies::Copies;
use crate::copying::{copy_block, put_block};
use crate::ending::{flush_one, sync_all};
use crate::image_fault::ImageFault;
use crate::listing::list_going;
use crate::reads::{has_image, lend, read, read_shared};
use crate::resume_fault::ResumeFault;
use crate::revert_fault::RevertFault;
use crate::reverts::{merge_image, revert};
use crate::write_fault::WriteFault;
use crate::written::Written;
use block_data::{BLOCK, BlockBuf, Payload};
use diff_area::Area;
use std::alloc::Global;
use std::marker::Model;
use volume_device::Device;
use vss_names::{Numbers, OutOfMemory};
use write_history::Evicted;

/// A group of volumes over one diff area, with the images that stand of them. Contracts see its devices, its area, and
/// for each volume the sets of its images.
#[derive(Drop)]
pub struct CowGroup<D: Device> {
    devices: Vec<D>,
    copies: Copies<D>,
    /// A block that is read or written.
    scratch: BlockBuf,
}

impl<D: Device> Model for CowGroup<D> {
    ghost use Rattle.std.specs.Prelude.{◌≡◌, map};
    ghost use Rattle.cow_volume.specs.StandsFor.{GroupValue};

    ghost Value = { GroupValue D };

    ghost view = { λ g. record { devices = g.devices.items; area = g.copies.area; images = g.copies.images } };

    ghost invariant = { λ g. map D.size g.devices.items ≡ g.copies.area.volumes };
}

impl<D: Device> CowGroup<D> {
    /// A group of volumes of zeros, without images. It takes all memory that the group ever needs.
    pub fn new(alloc: Global, devices: Vec<D>, area: Area<D>) -> Result<CowGroup<D>, OutOfMemory>
        requires fits { map D.size devices.items ≡ area.volumes }
        requires free { area.records ≡ replicate (length area.records) free }
        requires zeros { All (λ d. IfSome (D.told d) (λ blocks. blocks ≡ replicate (D.size d) zeros)) devices.items }
        ensures value { IfOk result (λ group. group ≡ record { devices = devices.items; area = area; images = map (λ n. []) area.volumes }) }
        ensures stands { IfOk result (λ group. StandsFor D.told group (map (λ n. fresh) area.volumes)) }
    {
        let copies = Copies::new(alloc, area)?;
        let scratch = BlockBuf::zeroed(alloc)?;
        Ok(CowGroup {
            devices,
            copies,
            scratch,
        })
    }

    /// Takes a group up again: its devices, its area, and for each volume the sets of its images, the oldest first. The first slot
    /// whose copy is of no such image refuses that. No device is read. It takes all memory that the group ever needs. Where no device
    /// tells what it holds, the group stands for some histories with these records and images.
    pub fn resume(
        alloc: Global,
        devices: Vec<D>,
        area: Area<D>,
        images: &[Numbers],
    ) -> Result<CowGroup<D>, ResumeFault>
        requires fits { map D.size devices.items ≡ area.volumes }
        requires lists { length images.now ≡ length area.volumes }
        requires rise { All AreImages images.now }
        ensures value { IfOk result (λ group. group ≡ record { devices = devices.items; area = area; images = images.now }) }
        ensures stands { IfOk result (λ group. (hs : List History) → AreKept D.told devices.items area images.now hs → StandsFor D.told group hs) }
        ensures untold { IfOk result (λ group. NoneTell D.told devices.items area.device → (hs : List History) × StandsFor D.told group hs) }
        ensures have_images { OnOk result (AllHaveImages area.records images.now) }
        ensures refused { IfErr result (IsResumeFault area.records images.now) }
    {
        let _facts = area.slots();
        let copies = Copies::resume(alloc, area, images)?;
        let Ok(scratch) = BlockBuf::zeroed(alloc) else {
            return Err(ResumeFault::OutOfMemory);
        };
        Ok(CowGroup {
            devices,
            copies,
            scratch,
        })
    }

    /// How many volumes the group has. Their numbers of blocks and the sets of their images are within the limits of a group.
    pub fn volumes(&self) -> u32
        ensures volumes { result ≡ length self.now.area.volumes }
        ensures devices { length self.now.devices ≡ length self.now.area.volumes }
        ensures images { length self.now.images ≡ length self.now.area.volumes }
        ensures allowed { AreVolumes self.now.area.volumes }
        ensures rise { (v : ℕ) (sets : List ℕ) → slice_get self.now.images v ≡ Some sets → AreImages sets }
        ensures have_images { AllHaveImages self.now.area.records self.now.images }
        ensures fits { map D.size self.now.devices ≡ self.now.area.volumes }
        ensures records { AreRecords self.now.area.volumes self.now.area.records }
        ensures whole { IfSome (D.told self.now.area.device) (AreBlocks (D.size self.now.area.device)) }
        ensures slots { D.size self.now.area.device ≡ blocks_for (length self.now.area.records) }
    {
        let _facts = self.copies.slots();
        self.copies.volumes()
    }

    /// The area, with the record of each slot.
    pub fn area(&self) -> &Area<D>
        ensures { result.now ≡ self.now.area }
    {
        self.copies.area()
    }

    /// How many slots the area has.
    pub fn slots(&self) -> u32
        ensures { result ≡ length self.now.area.records }
    {
        self.copies.slots()
    }

    /// How many blocks a volume has.
    pub fn blocks(&self, v: u32) -> u32
        requires { v < length self.now.area.volumes }
        ensures { result ≡ blocks_at self.now v }
    {
        self.copies.blocks(v)
    }

    /// The sets of the images of a volume, the oldest first.
    pub fn images(&self, v: u32) -> &[u32]
        requires { v < length self.now.area.volumes }
        ensures images { result.now ≡ sets_at self.now v }
        ensures few { length result.now ≤ 512 }
        ensures rise { AreImages result.now }
    {
        self.copies.images(v)
    }

    /// How many slots the images of a volume use.
    pub fn used(&self, v: u32) -> u32
        requires { v < length self.now.area.volumes }
        ensures { (hs : List History) → StandsFor D.told self.now hs → result ≡ used (blocks_at self.now v) (history_at hs v).writes (history_at hs v).images }
    {
        let _facts = self.copies.slots();
        self.copies.used_on(v)
    }

    /// How many slots the image of a set uses; None where no such image stands on the volume.
    pub fn used_by(&self, v: u32, set: u32) -> Option<u32>
        requires { v < length self.now.area.volumes }
        ensures { (hs : List History) → StandsFor D.told self.now hs → result ≡ used_by (blocks_at self.now v) (history_at hs v).writes (history_at hs v).images set }
    {
        let _facts = self.copies.slots();
        if !has_image(&self.copies, v, set) {
            return None;
        }
        Some(self.copies.used_of(v, set))
    }

    /// How many slots the images of the group use.
    pub fn used_all(&self) -> u32
        ensures used { (hs : List History) → StandsFor D.told self.now hs → result ≡ group_used (placed self.now.area.volumes) hs }
        ensures records { result ≡ used_in self.now.area.records }
    {
        let _facts = self.copies.slots();
        self.copies.used()
    }

    /// The greatest set whose images a write of the block would make go; 0 where none has to.
    pub fn goes_up_to(&self, v: u32, block: u32) -> u32
        requires volume { v < length self.now.area.volumes }
        requires in_range { block < blocks_at self.now v }
        ensures { (hs : List History) → StandsFor D.told self.now hs → IsEvicted self.now v block hs result }
    {
        let _facts = self.copies.slots();
        self.copies.goes_up_to(v, block)
    }

    /// An image is cut, the newest of the volume.
    pub fn cut(&mut self, v: u32, set: u32)
        requires volume { v < length self.old.area.volumes }
        requires room { length (sets_at self.old v) < 512 }
        requires above_zero { 0 < set }
        requires newest { All (λ s. s < set) (sets_at self.old v) }
        ensures devices { self.new.devices ≡ self.old.devices }
        ensures area { self.new.area ≡ self.old.area }
        ensures images { self.new.images ≡ slice_set self.old.images v (sets_at self.old v ++ set ∷ []) }
        ensures stands { (hs : List History) → StandsFor D.told self.old hs → StandsFor D.told self.new (changed_at v (cut set) hs) }
    {
        self.copies.add_image(v, set);
    }

    /// Reads a block of a volume, as it is or as the image of a set shows it, into `out`, which after a failed read holds any bytes.
    pub fn read_into(
        &mut self,
        v: u32,
        set: Option<u32>,
        block: u32,
        out: &mut [u8],
    ) -> Result<(), ImageFault>
        requires volume { v < length self.old.area.volumes }
        requires whole { length out.old ≡ BLOCK }
        ensures seen { OnOk result (IsSeen D.told self.old v set block out.new) }
        ensures there { OnOk result (is_there set (sets_at self.old v) ≡ true) }
        ensures in_range { OnOk result (block < blocks_at self.old v) }
        ensures same { OnOk result (IsUnfailed D.count self.old self.new) }
        ensures cause { IfErr result (HasImageCause D.count v set block self.old self.new) }
        ensures quiet { IsQuiet D.Device self.old self.new }
    {
        read(&mut self.devices, &mut self.copies, v, set, block, out)
    }

    /// Lends a block of a volume, as it is or as the image of a set shows it, in place. None where the device that has it does not
    /// lend.
    pub fn lend(&self, v: u32, set: Option<u32>, block: u32) -> Result<Option<&[u8]>, ImageFault>
        requires { v < length self.now.area.volumes }
        ensures seen { IfOk result (λ lent. IfSome lent (λ bytes. IsSeen D.told self.now v set block bytes.now)) }
        ensures whole { IfOk result (λ lent. IfSome lent (λ bytes. length bytes.now ≡ BLOCK)) }
        ensures there { OnOk result (is_there set (sets_at self.now v) ≡ true) }
        ensures in_range { OnOk result (block < blocks_at self.now v) }
        ensures lends { IfOk result (λ lent. IsLentBy D.lending self.now v set block (is_some lent)) }
        ensures unseen { IfErr result (IsUnseen (sets_at self.now v) (blocks_at self.now v) set block) }
    {
        lend(&self.devices, &self.copies, v, set, block)
    }

    /// Fills `out` with a block as it is, or as the image of a set shows it, while other threads may read too. False if the
    /// device that has it cannot be read so, the read failed, or there is no such image; then `out` holds any bytes.
    pub fn read_shared(&self, v: u32, set: Option<u32>, block: u32, out: &mut [u8]) -> bool
        requires volume { v < length self.now.area.volumes }
        requires in_range { block < blocks_at self.now v }
        requires whole { length out.old ≡ BLOCK }
        ensures { result ≡ true → IsSeen D.told self.now v set block out.new }
    {
        read_shared(&self.devices, &self.copies, v, set, block, out)
    }

    /// Writes a block. Where its old bytes need a slot for a copy and none is free, images go first, those of the group's least set
    /// together, until one is. The old bytes are copied into the lowest free slot, and then the block is overwritten; a fault in
    /// either gives the slot back.
    pub fn write(&mut self, v: u32, block: u32, payload: &Payload) -> Result<Written, WriteFault>
        requires { v < length self.old.area.volumes }
        ensures write { IsWrite D.Device self.old self.new v (record { block = block; bytes = payload_bytes payload.now }) result }
        ensures once { IsCopiedOnce D.told self.old self.new v block }
    {
        if block >= self.copies.blocks(v) {
            return Err(WriteFault {
                cause: Cause::NoSuchBlock,
                evicted_up_to: 0,
            });
        }
        let evicted_up_to = self.drop_for(v, block);
        match self.put(v, block, payload) {
            Ok(()) => Ok(Written { evicted_up_to }),
            Err(cause) => Err(WriteFault {
                cause,
                evicted_up_to,
            }),
        }
    }

    /// Makes room for a write of a block. Where its old bytes need a slot for a copy and none is free, images go, those of the
    /// group's least set together, until one is. The set up to which they went is answered, 0 where none did; `gone` then has
    /// them, in order of sets and then of volumes, and no memory is taken for it.
    pub fn make_room(&mut self, v: u32, block: u32, gone: &mut Vec<Evicted>) -> u32
        requires volume { v < length self.old.area.volumes }
        requires in_range { block < blocks_at self.old v }
        requires space { 512 * length self.old.area.volumes ≤ vec_capacity gone.old }
        ensures room { HasRoom D.told self.old self.new v block result }
        ensures told { gone.new.items ≡ images_going result self.old.images }
        ensures few { length gone.new.items ≤ 512 * length self.old.area.volumes }
        ensures space { vec_capacity gone.new ≡ vec_capacity gone.old }
    {
        let _facts = self.copies.slots();
        let _facts = self.copies.volumes();
        let up_to = self.copies.goes_up_to(v, block);
        list_going(&self.copies, up_to, gone);
        self.copies.drop_up_to(up_to);
        up_to
    }

    /// Writes a block that lacks no slot. Its old bytes are copied into the lowest free slot where they have to be, and then it is
    /// overwritten; a fault in either gives the slot back.
    pub fn put(&mut self, v: u32, block: u32, payload: &Payload) -> Result<(), Cause>
        requires volume { v < length self.old.area.volumes }
        requires in_range { block < blocks_at self.old v }
        requires room { lacks_slot self.old.area.records v (sets_at self.old v) block ≡ false }
        ensures put { IsPutOr D.Device self.old self.new v (record { block = block; bytes = payload_bytes payload.now }) result }
        ensures area { IsAreaPut D.told self.old self.new v block result }
        ensures images { self.new.images ≡ self.old.images }
    {
        if self.copies.lacks_copy(v, block) {
            return self.write_first(v, block, payload);
        }
        let device = &mut self.devices[v as usize];
        put_block(device, &mut self.scratch, block, payload)
    }

    /// The image of a set goes. Its copies go to the next older image, where that lacks them.
    pub fn drop_image(&mut self, v: u32, set: u32) -> Result<(), ImageFault>
        requires { v < length self.old.area.volumes }
        ensures { IsDropped D.Device self.old self.new v set result }
    {
        if !has_image(&self.copies, v, set) {
            return Err(ImageFault::NoSuchImage);
        }
        merge_image(&mut self.copies, v, set);
        Ok(())
    }

    /// Brings a volume back to the image of a set, which stays; the newer images go. The blocks that were written since then are
    /// restored in ascending order.
    pub fn revert(&mut self, v: u32, set: u32) -> Result<(), RevertFault>
        requires { v < length self.old.area.volumes }
        ensures { IsRevert D.Device self.old self.new v set result }
    {
        self.revert_some(v, set, None)
    }

    /// Brings a volume back to the image of a set as `revert` does. Where `most` is given, it restores no more blocks than that: where
    /// there are more it ends as if the volume's device had failed then.
    pub fn revert_some(&mut self, v: u32, set: u32, most: Option<u32>) -> Result<(), RevertFault>
        requires { v < length self.old.area.volumes }
        ensures revert { IsRevert (counted_as D.Device (is_some most)) self.old self.new v set result }
        ensures stops { NeverFails D.count → (k : ℕ) → most ≡ Some k → StopsAfter D.told self.old v set k result }
    {
        revert(
            &mut self.devices,
            &mut self.copies,
            &mut self.scratch,
            v,
            set,
            most,
        )
    }

    /// Brings all accepted writes of a volume to where they last.
    pub fn flush(&mut self, v: u32) -> Result<(), Cause>
        requires { v < length self.old.area.volumes }
        ensures quiet { IsQuiet D.Device self.old self.new }
        ensures same { OnOk result (IsUnfailed D.count self.old self.new) }
        ensures lasts { OnOk result ((d : D) → slice_get self.new.devices v ≡ Some d → D.lasting d ≡ D.told d) }
        ensures others { (u : ℕ) → u ≢ v → slice_get self.new.devices u ≡ slice_get self.old.devices u }
        ensures cause { IfErr result (λ cause. cause ≡ Cause.Volume) }
        ensures rose { IfErr result (λ cause. VolumeRose D.count v self.old self.new) }
    {
        flush_one(&mut self.devices, v)
    }

    /// Writes the records of the copies to the area's device, and brings all that was written to it to where it lasts.
    pub fn sync(&mut self) -> Result<(), Cause>
        ensures lasts { OnOk result (D.lasting self.new.area.device ≡ D.told self.new.area.device) }
        ensures table { IsTable D.told self.old self.new result }
        ensures sync { IsSync D.Device self.old self.new result }
    {
        sync_all(&mut self.copies)
    }

    /// The devices and the area, as they are.
    pub fn into_parts(self) -> (Vec<D>, Area<D>)
        ensures devices { result.0.items ≡ self.devices }
        ensures area { result.1 ≡ self.area }
    {
        let CowGroup {
            devices,
            copies,
            ..
        } = self;
        (devices, copies.into_area())
    }

    /// The images go that have to for a write of the block. The set up to which they go is answered.
    fn drop_for(&mut self, v: u32, block: u32) -> u32
        requires volume { v < length self.old.area.volumes }
        requires in_range { block < blocks_at self.old v }
        ensures { HasRoom D.told self.old self.new v block result }
    {
        let _facts = self.copies.slots();
        let _facts = self.copies.volumes();
        let up_to = self.copies.goes_up_to(v, block);
        self.copies.drop_up_to(up_to);
        up_to
    }

    /// Writes a block whose old bytes are copied first.
    fn write_first(&mut self, v: u32, block: u32, payload: &Payload) -> Result<(), Cause>
        requires volume { v < length self.old.area.volumes }
        requires in_range { block < blocks_at self.old v }
        requires lacks { lacks_copy self.old.area.records v (sets_at self.old v) block ≡ true }
        requires room { is_full self.old.area.records ≡ false }
        ensures put { IsPutOr D.Device self.old self.new v (record { block = block; bytes = payload_bytes payload.now }) result }
        ensures area { IsAreaPut D.told self.old self.new v block result }
        ensures images { self.new.images ≡ self.old.images }
    {
        let _facts = self.copies.slots();
        let Some(slot) = self.copies.free_slot() else {
            unreachable!();
        };
        let device = &mut self.devices[v as usize];
        copy_block(device, &mut self.copies, &mut self.scratch, block, slot)?;
        put_block(device, &mut self.scratch, block, payload)?;
        self.copies.note(v, block, slot);
        Ok(())
    }
}
