ghost use Rattle.std.specs.Prelude.{◌≡◌, ◌<◌, List, ℕ, Some, true, false, length, slice_get, IfErr, IfOk, IfSome, IsErrOf, OnOk};
ghost use Rattle.block_data.specs.BlockBytes.{payload_bytes, zeros};
ghost use Rattle.cow_volume.specs.Calls.{HasCauseAt, HasImageCause, IsNow, IsQuiet, IsShown, IsUnfailed, is_among, sets_at};
ghost use Rattle.vss_names.specs.Faults.{HasCause};

use block_data::{BLOCK, BlockBuf, Payload};
use cow_volume::{Cause, CowGroup, ImageFault};
use std::alloc::Global;
use std::marker::Model;
use volume_device::Device;
use vss_names::{Failed, OutOfMemory};

/// A block that is read and may then be put, without taking memory. Contracts see its bytes.
#[derive(Drop)]
pub struct Piece {
    payload: Payload,
}

impl Model for Piece {
    ghost use Rattle.std.specs.Prelude.{List, ℕ};
    ghost use Rattle.block_data.specs.BlockBytes.{payload_bytes};
    ghost use Rattle.image_store.specs.Updating.{IsBlock};

    ghost Value = { List ℕ };

    ghost view = { λ p. payload_bytes p.payload };

    ghost invariant = { λ p. IsBlock p.payload };
}

impl Piece {
    /// One of zeros.
    pub fn new(alloc: Global) -> Result<Piece, OutOfMemory>
        ensures { IfOk result (λ piece. piece ≡ zeros) }
    {
        Ok(Piece {
            payload: Payload::Bytes(BlockBuf::zeroed(alloc)?),
        })
    }

    /// Two of zeros.
    pub(crate) fn two(alloc: Global) -> Result<(Piece, Piece), OutOfMemory>
        ensures { IfOk result (λ pieces. (pieces.0 ≡ zeros) × (pieces.1 ≡ zeros)) }
    {
        let first = Piece::new(alloc)?;
        Ok((first, Piece::new(alloc)?))
    }

    /// Reads a block of a device.
    pub fn read_device<I: Device>(&mut self, device: &mut I, b: u32) -> Result<(), Failed>
        requires { b < I.size device.old }
        ensures block { OnOk result (IfSome (I.told device.old) (λ blocks. slice_get blocks b ≡ Some self.new)) }
        ensures told { I.told device.new ≡ I.told device.old }
        ensures size { I.size device.new ≡ I.size device.old }
        ensures cause { HasCause (I.count device.old) (I.count device.new) result }
    {
        match &mut self.payload {
            Payload::Bytes(block) => device.read_into(b, block.bytes_mut()),
            _ => unreachable!(),
        }
    }

    /// Reads a block of a volume as it is.
    pub fn read_volume<D: Device>(
        &mut self,
        group: &mut CowGroup<D>,
        v: u32,
        b: u32,
    ) -> Result<(), Cause>
        requires volume { v < length group.old.area.volumes }
        ensures now { OnOk result (IsNow D.told group.old v b self.new) }
        ensures same { OnOk result (IsUnfailed D.count group.old group.new) }
        ensures cause { IfErr result (HasCauseAt D.count v b group.old group.new) }
        ensures quiet { IsQuiet D.Device group.old group.new }
    {
        match &mut self.payload {
            Payload::Bytes(block) => match group.read_into(v, None, b, block.bytes_mut()) {
                Ok(()) => Ok(()),
                Err(fault) => Err(fault.cause()),
            },
            _ => unreachable!(),
        }
    }

    /// Reads a block as the image of a set shows it.
    pub fn read_image<D: Device>(
        &mut self,
        group: &mut CowGroup<D>,
        v: u32,
        set: u32,
        b: u32,
    ) -> Result<(), ImageFault>
        requires volume { v < length group.old.area.volumes }
        ensures shown { OnOk result (IsShown D.told group.old v set b self.new) }
        ensures image { OnOk result (is_among set (sets_at group.old v) ≡ true) }
        ensures same { OnOk result (IsUnfailed D.count group.old group.new) }
        ensures cause { IfErr result (HasImageCause D.count v (Some set) b group.old group.new) }
        ensures unseen { IsErrOf result ImageFault.NoSuchImage → is_among set (sets_at group.old v) ≡ false }
        ensures quiet { IsQuiet D.Device group.old group.new }
    {
        match &mut self.payload {
            Payload::Bytes(block) => group.read_into(v, Some(set), b, block.bytes_mut()),
            _ => unreachable!(),
        }
    }

    /// Lends its 16,384 bytes.
    pub fn bytes(&self) -> &[u8]
        ensures bytes { result.now ≡ self.now }
        ensures whole { length result.now ≡ BLOCK }
    {
        match &self.payload {
            Payload::Bytes(block) => block.bytes(),
            _ => unreachable!(),
        }
    }

    /// What a volume is given to put these bytes.
    pub fn payload(&self) -> &Payload
        ensures { payload_bytes result.now ≡ self.now }
    {
        &self.payload
    }
}
