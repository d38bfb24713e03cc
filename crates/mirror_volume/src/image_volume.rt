ghost use Rattle.std.specs.Prelude.{◌≡◌, ◌<◌, ℕ, Bool, List, Option, length, All, OnErr};
ghost use Rattle.block_data.specs.BlockBytes.{payload_bytes};
ghost use Rattle.write_history.specs.History.{History, sets_of};
ghost use Rattle.mirror_volume.specs.Contract.{IsSame, IsNoLessReady, StandsStill, IsWrite, IsRead, IsImageRead, IsDropped, IsCut};

use crate::no_mirror::NoMirror;
use block_data::{BLOCK, Payload};
use cow_volume::{Cause, ImageFault, WriteFault, Written};

/// A volume with images of itself, whatever holds their blocks. After `new` no call takes memory.
pub trait ImageVolume {
    /// It stands for a volume history: a list of effective writes, and the images that stand.
    ghost stands: { Self → History → Type 0 };

    /// Whether its devices tell their blocks, so that what is read is known. It never changes.
    ghost tells: { Self → Bool };

    /// How many blocks it has, which never changes.
    ghost size: { Self → ℕ };

    /// How many slots there are for the copies that its images need, which never changes; None where they need none. Where a write
    /// lacks a slot, images go.
    ghost slots: { Self → Option ℕ };

    /// The sets of its images, the oldest first.
    ghost sets: { Self → List ℕ };

    /// How many cuts it is ready for. It falls only in a cut, and where the count rose.
    ghost ready_for: { Self → ℕ };

    /// How many calls of its devices failed. The number stands still at the greatest `u64`.
    ghost count: { Self → ℕ };

    /// How many of the cuts that it is ready for one cut uses up, at most.
    ghost per_cut: { ℕ };

    fn blocks(&self) -> u32
        ensures { result ≡ size self.now };

    /// The sets of the images, the oldest first.
    fn images(&self) -> &[u32]
        ensures { result.now ≡ sets self.now };

    /// How many cuts it is ready for.
    fn ready(&self) -> u32
        ensures { result ≡ ready_for self.now };

    /// Writes a block. The images of the sets up to the number that is answered go, as the definition of slots has it.
    fn write(&mut self, block: u32, payload: &Payload) -> Result<Written, WriteFault>
        ensures write { IsWrite stands size slots count self.old self.new (record { block = block; bytes = payload_bytes payload.now }) result }
        ensures same { IsSame tells size slots count self.old self.new }
        ensures ready { IsNoLessReady ready_for count self.old self.new };

    /// Reads a block as it is into `out`, which after a failed read holds any bytes.
    fn read_into(&mut self, block: u32, out: &mut [u8]) -> Result<(), Cause>
        requires { length out.old ≡ BLOCK }
        ensures read { IsRead stands tells size count self.old self.new block out.new result }
        ensures stands_for { StandsStill stands self.old self.new }
        ensures same { IsSame tells size slots count self.old self.new }
        ensures ready { IsNoLessReady ready_for count self.old self.new };

    /// Reads a block as the image of a set shows it into `out`, which after a failed read holds any bytes.
    fn read_image_into(&mut self, set: u32, block: u32, out: &mut [u8]) -> Result<(), ImageFault>
        requires { length out.old ≡ BLOCK }
        ensures read { IsImageRead stands tells size sets count self.old self.new set block out.new result }
        ensures stands_for { StandsStill stands self.old self.new }
        ensures same { IsSame tells size slots count self.old self.new }
        ensures ready { IsNoLessReady ready_for count self.old self.new };

    /// The image of a set goes.
    fn drop_image(&mut self, set: u32) -> Result<(), ImageFault>
        ensures dropped { IsDropped stands sets self.old self.new set result }
        ensures same { IsSame tells size slots count self.old self.new }
        ensures ready { IsNoLessReady ready_for count self.old self.new };

    /// An image is cut, the newest.
    fn cut(&mut self, set: u32) -> Result<(), NoMirror>
        requires room { length (sets self.old) < 512 }
        requires above_zero { 0 < set }
        requires newest { All (λ s. s < set) (sets self.old) }
        ensures cut { IsCut stands ready_for per_cut self.old self.new set result }
        ensures same { IsSame tells size slots count self.old self.new };

    /// The sets are those of the images of each history that it stands for.
    ghost sets_are: { (v : Self) (h : History) → stands v h → sets v ≡ sets_of h.images };
}
