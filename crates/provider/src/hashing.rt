//! The SHA-256 of a volume or of an image, block by block: in place where a device lends, else over one buffer.

ghost use Rattle.std.specs.Prelude.{◌≡◌, ◌<◌, Bool, true, false, length, IfErr, OnOk, IfOk};
ghost use Rattle.hex.specs.Hex.{IsBytes};
ghost use Rattle.cow_volume.specs.Calls.{IsSeen, IsUnfailed, blocks_at, counted_as, counted_by, is_there, sets_at};
ghost use Rattle.cow_volume.specs.StandsFor.{GroupValue};
ghost use Rattle.provider.specs.GroupCalls.{ImageRose, IsGroupDigest, IsQuietGroup};

use block_data::{BLOCK, BlockBuf, Hasher};
use cow_volume::{CowGroup, ImageFault};
use volume_device::Device;

/// A group whose blocks are read, by one thread alone or while other threads read too.
pub(crate) trait Reads<D: Device> {
    ghost group: { Self → GroupValue D };

    /// Whether other threads read too. Then no count shows whether a read failed.
    ghost shared: { Bool };

    fn group(&self) -> &CowGroup<D>
        ensures { result.now ≡ group self.now };

    /// Reads a block into `out`, as it is or as the image of a set shows it.
    fn read(&mut self, v: u32, set: Option<u32>, b: u32, out: &mut [u8]) -> Result<(), ImageFault>
        requires volume { v < length (group self.old).area.volumes }
        requires there { is_there set (sets_at (group self.old) v) ≡ true }
        requires in_range { b < blocks_at (group self.old) v }
        requires whole { length out.old ≡ BLOCK }
        ensures seen { OnOk result (IsSeen D.told (group self.old) v set b out.new) }
        ensures same { OnOk result
            (IsUnfailed (counted_by D.count shared) (group self.old) (group self.new)) }
        ensures rose { IfErr result
            (ImageRose (counted_by D.count shared) v (group self.old) (group self.new)) }
        ensures quiet { IsQuietGroup (counted_as D.Device shared)
            (group self.old) (group self.new) };
}

impl<D: Device> Reads<D> for CowGroup<D> {
    ghost group = { λ g. g };

    ghost shared = { false };

    fn group(&self) -> &CowGroup<D> {
        self
    }

    fn read(&mut self, v: u32, set: Option<u32>, b: u32, out: &mut [u8]) -> Result<(), ImageFault> {
        self.read_into(v, set, b, out)
    }
}

impl<D: Device> Reads<D> for &CowGroup<D> {
    ghost group = { λ g. g.now };

    ghost shared = { true };

    fn group(&self) -> &CowGroup<D> {
        self
    }

    /// After a failed read the error is `Area`, whichever device failed.
    fn read(&mut self, v: u32, set: Option<u32>, b: u32, out: &mut [u8]) -> Result<(), ImageFault> {
        if self.read_shared(v, set, b, out) {
            return Ok(());
        }
        Err(ImageFault::Area)
    }
}

/// Says to contracts that bytes are bytes.
fn are_bytes(bytes: &[u8])
    ensures { IsBytes bytes.now }
{
    let _ = bytes;
}

/// Whether a volume of a group is there: as it is, or as the image of a set shows it.
fn is_there<D: Device>(group: &CowGroup<D>, volume: u32, set: Option<u32>) -> bool
    requires { volume < length group.now.area.volumes }
    ensures { result ≡ is_there set (sets_at group.now volume) }
{
    match set {
        None => true,
        Some(set) => group.images(volume).contains(&set),
    }
}

/// The SHA-256 of all blocks of a volume, as it is or as the image of a set shows it, in order.
pub(crate) fn digest_of<D: Device, R: Reads<D>>(
    reader: &mut R,
    buffer: &mut BlockBuf,
    volume: u32,
    set: Option<u32>,
) -> Result<[u8; 32], ImageFault>
    requires { volume < length (R.group reader.old).area.volumes }
    ensures digest { IsGroupDigest (counted_as D.Device R.shared)
        (R.group reader.old) (R.group reader.new) volume set result }
    ensures wide { IfOk result (λ digest. (length digest ≡ 32) × IsBytes digest) }
{
    if !is_there(reader.group(), volume, set) {
        return Err(ImageFault::NoSuchImage);
    }
    let mut hasher = Hasher::new();
    for block in 0..reader.group().blocks(volume) {
        if let Ok(Some(bytes)) = reader.group().lend(volume, set, block) {
            hasher.add(bytes);
            continue;
        }
        reader.read(volume, set, block, buffer.bytes_mut())?;
        hasher.add(buffer.bytes());
    }
    let digest = hasher.finish();
    are_bytes(&digest);
    Ok(digest)
}
