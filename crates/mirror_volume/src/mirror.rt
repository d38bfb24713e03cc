ghost use Rattle.std.specs.Prelude.{◌≡◌, ◌<◌, ℕ, length, map, option_map, slice_set, IfOk, IfSome, IsNone, OnOk, OnErr};
ghost use Rattle.vss_names.specs.Faults.{HasCause};
ghost use Rattle.block_data.specs.BlockBytes.{payload_bytes};
ghost use Rattle.mirror_volume.specs.Mirrors.{counts_from, mirror_over, is_held, is_ready};
ghost use Rattle.mirror_volume.specs.MirrorCalls.{HaveBlock, IsCalled, AreCalled, AreLasting, IsMirrorRead, IsFollowed, AreFollowed, IsFirstReady, NoneReady, IsHolder, NoneHolds};

use crate::stale_blocks::StaleBlocks;
use block_data::{BLOCK, BlockBuf, Payload};
use cow_volume::ImageFault;
use std::alloc::Global;
use volume_device::Device;
use vss_names::{Failed, OutOfMemory};

/// A whole mirror of a volume: its device, the set of the image that it holds, and the blocks that may differ from the primary's.
#[derive(Drop)]
pub struct Mirror<D: Device> {
    pub(crate) device: D,
    pub(crate) holds: Option<u32>,
    pub(crate) stale: StaleBlocks,
}

impl<D: Device> Mirror<D> {
    /// A mirror that holds no image, over a device of so many blocks, all of which are stale, or in step.
    pub(crate) fn new(
        alloc: Global,
        device: D,
        blocks: u32,
        stale: bool,
    ) -> Result<Mirror<D>, OutOfMemory>
        ensures { IfOk result (λ mirror. mirror ≡ mirror_over stale blocks device) }
    {
        let stale = StaleBlocks::new(alloc, blocks, stale)?;
        Ok(Mirror {
            device,
            holds: None,
            stale,
        })
    }

    /// Its device, as it is.
    pub fn into_device(self) -> D
        ensures { result ≡ self.device }
    {
        self.device
    }

    /// Whether it holds no image and has no stale block.
    pub(crate) fn is_ready(&self) -> bool
        ensures { result ≡ is_ready self.now }
    {
        self.holds.is_none() && self.stale.count() == 0
    }

    /// Whether it holds the image of a set.
    pub(crate) fn holds_image(&self, set: u32) -> bool
        ensures { result ≡ is_held set self.now.holds }
    {
        match self.holds {
            Some(held) => held == set,
            None => false,
        }
    }

    /// Follows a write of the volume: the block is written, where the mirror holds no image.
    pub(crate) fn follow(&mut self, block: u32, bytes: &[u8])
        requires in_range { block < D.size self.old.device }
        requires place { block < length self.old.stale }
        requires whole { length bytes.now ≡ BLOCK }
        ensures { IsFollowed D.Device block bytes.now self.old self.new }
    {
        if self.holds.is_some() {
            self.stale.mark(block);
            return;
        }
        let _blocks = self.device.blocks();
        match self.device.write(block, bytes) {
            Ok(()) => self.stale.unmark(block),
            Err(_) => self.stale.mark(block),
        }
    }

    /// Brings all that was written to it to where it lasts.
    fn flush(&mut self) -> Result<(), Failed>
        ensures called { IsCalled D.Device self.old self.new }
        ensures lasts { OnOk result (D.lasting self.new.device ≡ D.told self.new.device) }
        ensures cause { HasCause (D.count self.old.device) (D.count self.new.device) result }
    {
        self.device.flush()
    }
}

/// Writes a block of a device by `scratch`, which then holds what was to be written.
pub(crate) fn put_block<D: Device>(
    device: &mut D,
    scratch: &mut BlockBuf,
    block: u32,
    payload: &Payload,
) -> Result<(), Failed>
    requires { block < D.size device.old }
    ensures written { OnOk result (D.told device.new ≡ option_map (λ blocks. slice_set blocks block (payload_bytes payload.now)) (D.told device.old)) }
    ensures kept { OnErr result (D.told device.new ≡ D.told device.old) }
    ensures size { D.size device.new ≡ D.size device.old }
    ensures cause { HasCause (D.count device.old) (D.count device.new) result }
    ensures scratch { scratch.new ≡ payload_bytes payload.now }
{
    payload.fill_into(scratch.bytes_mut());
    device.write(block, scratch.bytes())
}

/// Reads a block of a mirror into `out`, which after a failed read holds any bytes.
pub(crate) fn read_mirror<D: Device>(
    mirror: &mut Mirror<D>,
    block: u32,
    out: &mut [u8],
) -> Result<(), ImageFault>
    requires in_range { block < D.size mirror.old.device }
    requires whole { length out.old ≡ BLOCK }
    ensures { IsMirrorRead D.Device mirror.old mirror.new block out.new result }
{
    match mirror.device.read_into(block, out) {
        Ok(()) => Ok(()),
        Err(_) => Err(ImageFault::Volume),
    }
}

/// Each mirror follows a write of the volume.
pub(crate) fn follow_all<D: Device>(mirrors: &mut [Mirror<D>], block: u32, bytes: &[u8])
    requires places { HaveBlock D.size block mirrors.old }
    requires whole { length bytes.now ≡ BLOCK }
    ensures { AreFollowed D.Device block bytes.now mirrors.old mirrors.new }
{
    for mirror in mirrors.iter_mut() {
        mirror.follow(block, bytes);
    }
}

/// Brings all that was written to each mirror to where it lasts, one after another. It ends at the first that fails.
pub(crate) fn flush_all<D: Device>(mirrors: &mut [Mirror<D>]) -> Result<(), Failed>
    ensures called { AreCalled D.Device mirrors.old mirrors.new }
    ensures last { OnOk result (AreLasting D.Device mirrors.new) }
    ensures cause { (own : ℕ) → HasCause (counts_from D.count own mirrors.old) (counts_from D.count own mirrors.new) result }
{
    for mirror in mirrors.iter_mut() {
        mirror.flush()?;
    }
    Ok(())
}

/// Mirrors over these devices, each of so many blocks, all of which are stale, or in step.
pub(crate) fn all_mirrors<D: Device>(
    alloc: Global,
    devices: Vec<D>,
    blocks: u32,
    stale: bool,
) -> Result<Vec<Mirror<D>>, OutOfMemory>
    ensures { IfOk result (λ mirrors. mirrors.items ≡ map (mirror_over stale blocks) devices.items) }
{
    let mut mirrors = Vec::with_capacity(alloc, devices.len())?;
    for device in devices {
        mirrors.push(Mirror::new(alloc, device, blocks, stale)?)?;
    }
    Ok(mirrors)
}

/// The place of the first mirror that is ready.
pub(crate) fn first_ready<D: Device>(mirrors: &[Mirror<D>]) -> Option<usize>
    ensures first { IfSome result (IsFirstReady mirrors.now) }
    ensures none { IsNone result → NoneReady mirrors.now }
{
    for (place, mirror) in mirrors.iter().enumerate() {
        if mirror.is_ready() {
            return Some(place);
        }
    }
    None
}

/// The place of the mirror that holds the image of a set.
pub(crate) fn holder<D: Device>(mirrors: &[Mirror<D>], set: u32) -> Option<usize>
    ensures found { IfSome result (IsHolder mirrors.now set) }
    ensures none { IsNone result → NoneHolds mirrors.now set (length mirrors.now) }
{
    for (place, mirror) in mirrors.iter().enumerate() {
        if mirror.holds_image(set) {
            return Some(place);
        }
    }
    None
}
