ghost use Rattle.std.specs.Prelude.{◌≡◌, ◌<◌, ◌≤◌, [], Some, false, true, length, map, replicate, All, IfOk, IfErr, IfSome, OnOk, slice_get};
ghost use Rattle.vss_names.specs.Faults.{HasCause};
ghost use Rattle.block_data.specs.BlockBytes.{zeros, payload_bytes};
ghost use Rattle.write_history.specs.History.{History, contents, fresh, dropped, cut};
ghost use Rattle.mirror_volume.specs.Mirrors.{AreMirrors, StandsFor, mirror_over, ready_count, EqualsPrimary};
ghost use Rattle.mirror_volume.specs.MirrorCalls.{IsWrite, after_write, IsRead, IsImageRead, IsCut, IsDropped, IsQuiet, IsMirrorFlush, IsAllFlushed};
ghost use Rattle.mirror_volume.specs.Resync.{IsSynced, stale_at};

use crate::mirror::{
    Mirror, all_mirrors, first_ready, flush_all, follow_all, holder, put_block, read_mirror,
};
use crate::no_mirror::NoMirror;
use crate::resync::step;
use crate::sync_fault::SyncFault;
use crate::synced::Synced;
use block_data::{BLOCK, BlockBuf, Payload};
use cow_volume::{Cause, ImageFault, WriteFault, Written};
use std::alloc::Global;
use std::marker::Model;
use volume_device::Device;
use vss_names::{Failed, MOST_IMAGES, OutOfMemory};

/// A volume with 1 to 8 whole mirrors of it. At a cut a mirror that is in step is split off, and shows the image until that is
/// dropped; then it is brought into step again, a block a step.
///
/// An image costs no copy and no space beside the mirrors'; each write is made on the primary and on each mirror that holds no image.
#[derive(Drop)]
pub struct MirrorVolume<D: Device> {
    primary: D,
    mirrors: Vec<Mirror<D>>,
    /// The sets of the images, the oldest first.
    images: Vec<u32>,
    /// A block that is written.
    scratch: BlockBuf,
}

impl<D: Device> Model for MirrorVolume<D> {
    ghost use Rattle.mirror_volume.specs.Mirrors.{MirrorValue, KeepsMirrors};

    ghost Value = { MirrorValue D };

    ghost view = { λ v. record { primary = v.primary; mirrors = v.mirrors.items; images = v.images.items } };

    ghost invariant = { λ v. KeepsMirrors D.size v.primary v.mirrors.items v.images };
}

impl<D: Device> MirrorVolume<D> {
    /// A volume of zeros, without images, whose mirrors are in step. It takes all memory that the volume ever needs.
    pub fn new(alloc: Global, primary: D, mirrors: Vec<D>) -> Result<MirrorVolume<D>, OutOfMemory>
        requires some { 0 < length mirrors.items }
        requires few { length mirrors.items ≤ 8 }
        requires fits { All (λ d. D.size d ≡ D.size primary) mirrors.items }
        requires primary_zeros { IfSome (D.told primary) (λ blocks. blocks ≡ replicate (D.size primary) zeros) }
        requires mirrors_zeros { All (λ d. IfSome (D.told d) (λ blocks. blocks ≡ replicate (D.size d) zeros)) mirrors.items }
        ensures value { IfOk result (λ volume. volume ≡ record { primary = primary; mirrors = map (mirror_over false (D.size primary)) mirrors.items; images = [] }) }
        ensures stands { IfOk result (λ volume. StandsFor D.Device volume fresh) }
    {
        let images = Vec::with_capacity(alloc, MOST_IMAGES)?;
        let scratch = BlockBuf::zeroed(alloc)?;
        let mirrors = all_mirrors(alloc, mirrors, primary.blocks(), false)?;
        Ok(MirrorVolume {
            primary,
            mirrors,
            images,
            scratch,
        })
    }

    /// A volume without images over devices that hold what they hold: all blocks of its mirrors are stale until they are brought into
    /// step. It takes all memory that the volume ever needs.
    pub fn resume(
        alloc: Global,
        primary: D,
        mirrors: Vec<D>,
    ) -> Result<MirrorVolume<D>, OutOfMemory>
        requires some { 0 < length mirrors.items }
        requires few { length mirrors.items ≤ 8 }
        requires fits { All (λ d. D.size d ≡ D.size primary) mirrors.items }
        ensures value { IfOk result (λ volume. volume ≡ record { primary = primary; mirrors = map (mirror_over true (D.size primary)) mirrors.items; images = [] }) }
        ensures stands { IfOk result (λ volume. (h : History) → h.images ≡ [] → IfSome (D.told primary) (λ blocks. blocks ≡ contents (D.size primary) h.writes (length h.writes)) → StandsFor D.Device volume h) }
    {
        let images = Vec::with_capacity(alloc, MOST_IMAGES)?;
        let scratch = BlockBuf::zeroed(alloc)?;
        let mirrors = all_mirrors(alloc, mirrors, primary.blocks(), true)?;
        Ok(MirrorVolume {
            primary,
            mirrors,
            images,
            scratch,
        })
    }

    /// How many blocks the volume has.
    pub fn blocks(&self) -> u32
        ensures { result ≡ D.size self.now.primary }
    {
        self.primary.blocks()
    }

    /// How many mirrors the volume has.
    pub fn mirrors(&self) -> u32
        ensures { result ≡ length self.now.mirrors }
    {
        self.mirrors.len() as u32
    }

    /// The sets of the images, the oldest first.
    pub fn images(&self) -> &[u32]
        ensures { result.now ≡ self.now.images }
    {
        &self.images
    }

    /// How many mirrors hold no image and have no stale block.
    pub fn ready(&self) -> u32
        ensures { result ≡ ready_count self.now }
    {
        self.mirrors
            .iter()
            .filter(|mirror| mirror.is_ready())
            .count() as u32
    }

    /// How many blocks of a mirror may differ from the primary's; each other block equals it, where both devices tell.
    pub fn stale(&self, mirror: u32) -> u32
        requires { mirror < length self.now.mirrors }
        ensures count { result ≡ stale_at self.now mirror }
        ensures others { (h : History) → StandsFor D.Device self.now h → EqualsPrimary D.told self.now mirror }
    {
        let mirror = &self.mirrors[mirror as usize];
        mirror.stale.count()
    }

    /// Writes a block to the primary, and then to each mirror that holds no image. A mirror whose write fails has the block stale,
    /// as one that holds an image has.
    pub fn write(&mut self, block: u32, payload: &Payload) -> Result<Written, WriteFault>
        ensures write { IsWrite D.Device self.old self.new (record { block = block; bytes = payload_bytes payload.now }) result }
        ensures stands { (h : History) → StandsFor D.Device self.old h → StandsFor D.Device self.new (after_write (record { block = block; bytes = payload_bytes payload.now }) result h) }
    {
        if block >= self.primary.blocks() {
            return Err(WriteFault {
                cause: Cause::NoSuchBlock,
                evicted_up_to: 0,
            });
        }
        if put_block(&mut self.primary, &mut self.scratch, block, payload).is_err() {
            return Err(WriteFault {
                cause: Cause::Volume,
                evicted_up_to: 0,
            });
        }
        follow_all(&mut self.mirrors, block, self.scratch.bytes());
        Ok(Written { evicted_up_to: 0 })
    }

    /// Reads a block of the primary into `out`, which after a failed read holds any bytes.
    pub fn read_into(&mut self, block: u32, out: &mut [u8]) -> Result<(), Cause>
        requires { length out.old ≡ BLOCK }
        ensures read { IsRead D.Device self.old self.new block out.new result }
        ensures stands { (h : History) → StandsFor D.Device self.old h → StandsFor D.Device self.new h }
    {
        if block >= self.primary.blocks() {
            return Err(Cause::NoSuchBlock);
        }
        match self.primary.read_into(block, out) {
            Ok(()) => Ok(()),
            Err(_) => Err(Cause::Volume),
        }
    }

    /// Reads a block of the mirror that holds the image of a set into `out`, which after a failed read holds any bytes.
    pub fn read_image_into(
        &mut self,
        set: u32,
        block: u32,
        out: &mut [u8],
    ) -> Result<(), ImageFault>
        requires { length out.old ≡ BLOCK }
        ensures read { IsImageRead D.Device self.old self.new set block out.new result }
        ensures stands { (h : History) → StandsFor D.Device self.old h → StandsFor D.Device self.new h }
    {
        let Some(place) = holder(&self.mirrors, set) else {
            return Err(ImageFault::NoSuchImage);
        };
        if block >= self.primary.blocks() {
            return Err(ImageFault::NoSuchBlock);
        }
        let mirror = &mut self.mirrors[place];
        read_mirror(mirror, block, out)
    }

    /// An image is cut, the newest: the first mirror that holds no image and has no stale block is split off.
    pub fn cut(&mut self, set: u32) -> Result<(), NoMirror>
        requires room { length self.old.images < 512 }
        requires above_zero { 0 < set }
        requires newest { All (λ s. s < set) self.old.images }
        ensures cut { IsCut self.old self.new set result }
        ensures stands { OnOk result ((h : History) → StandsFor D.Device self.old h → StandsFor D.Device self.new (cut set h)) }
    {
        let Some(place) = first_ready(&self.mirrors) else {
            return Err(NoMirror);
        };
        let mirror = &mut self.mirrors[place];
        mirror.holds = Some(set);
        let _ = self.images.push(set);
        Ok(())
    }

    /// The image of a set goes. The mirror that held it has its stale blocks still.
    pub fn drop_image(&mut self, set: u32) -> Result<(), ImageFault>
        ensures dropped { IsDropped self.old self.new set result }
        ensures stands { OnOk result ((h : History) → StandsFor D.Device self.old h → StandsFor D.Device self.new (dropped set h)) }
    {
        let Some(place) = holder(&self.mirrors, set) else {
            return Err(ImageFault::NoSuchImage);
        };
        let mirror = &mut self.mirrors[place];
        mirror.holds = None;
        self.images.retain(|&image| image != set);
        Ok(())
    }

    /// Copies the lowest stale block of a mirror from the primary, where the mirror holds no image.
    pub fn resync_step(&mut self, mirror: u32) -> Result<Synced, SyncFault>
        requires { mirror < length self.old.mirrors }
        ensures synced { IsSynced D.Device self.old self.new mirror result }
        ensures stands { (h : History) → StandsFor D.Device self.old h → StandsFor D.Device self.new h }
    {
        let mirror = &mut self.mirrors[mirror as usize];
        step(&mut self.primary, mirror, &mut self.scratch)
    }

    /// Brings all accepted writes of the volume to where they last. The mirrors are flushed one by one.
    pub fn flush(&mut self) -> Result<(), Failed>
        ensures lasts { OnOk result (D.lasting self.new.primary ≡ D.told self.new.primary) }
        ensures quiet { IsQuiet D.Device self.old self.new }
        ensures cause { HasCause (D.count self.old.primary) (D.count self.new.primary) result }
        ensures stands { (h : History) → StandsFor D.Device self.old h → StandsFor D.Device self.new h }
    {
        self.primary.flush()
    }

    /// Brings all that was written to a mirror to where it lasts: the image that it holds, or its blocks in step.
    pub fn flush_mirror(&mut self, mirror: u32) -> Result<(), Failed>
        requires { mirror < length self.old.mirrors }
        ensures flushed { IsMirrorFlush D.Device self.old self.new mirror result }
        ensures stands { (h : History) → StandsFor D.Device self.old h → StandsFor D.Device self.new h }
    {
        let mirror = &mut self.mirrors[mirror as usize];
        mirror.device.flush()
    }

    /// Brings all that was written to the primary, and then to each mirror, to where it lasts. It ends at the first device that fails.
    pub fn sync(&mut self) -> Result<(), Failed>
        ensures flushed { IsAllFlushed D.Device self.old self.new result }
        ensures stands { (h : History) → StandsFor D.Device self.old h → StandsFor D.Device self.new h }
    {
        self.primary.flush()?;
        flush_all(&mut self.mirrors)
    }

    /// The primary's device, and the mirrors, as they are.
    pub fn into_parts(self) -> (D, Vec<Mirror<D>>)
        ensures primary { result.0 ≡ self.primary }
        ensures mirrors { result.1.items ≡ self.mirrors }
        ensures fits { AreMirrors D.size (D.size result.0) result.1.items }
    {
        (self.primary, self.mirrors)
    }
}
