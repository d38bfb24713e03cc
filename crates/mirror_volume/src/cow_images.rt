//! A copy-on-write volume is a volume with images. It is ready for a cut at any time.

ghost use Rattle.cow_volume.specs.OneVolume.{StandsForOne, blocks_of, image_sets, tells};
ghost use Rattle.mirror_volume.specs.Contract.{faults_of, image_sets_are, slots_of};

use crate::image_volume::ImageVolume;
use crate::no_mirror::NoMirror;
use block_data::Payload;
use cow_volume::{Cause, CowVolume, ImageFault, WriteFault, Written};
use volume_device::Device;

impl<D: Device> ImageVolume for CowVolume<D> {
    ghost stands = { λ v h. StandsForOne D.told v h };

    ghost tells = { λ v. tells D.told v };

    ghost size = { λ v. blocks_of v };

    ghost slots = { λ v. slots_of v };

    ghost sets = { λ v. image_sets v };

    ghost ready_for = { λ v. 1 };

    ghost count = { λ v. faults_of D.count v };

    ghost per_cut = { 0 };

    ghost sets_are = { λ v h stood. image_sets_are D.told v h stood };

    fn blocks(&self) -> u32 {
        self.blocks()
    }

    fn images(&self) -> &[u32] {
        self.images()
    }

    fn ready(&self) -> u32 {
        1
    }

    fn write(&mut self, block: u32, payload: &Payload) -> Result<Written, WriteFault> {
        self.write(block, payload)
    }

    fn read_into(&mut self, block: u32, out: &mut [u8]) -> Result<(), Cause> {
        self.read_into(block, out)
    }

    fn read_image_into(&mut self, set: u32, block: u32, out: &mut [u8]) -> Result<(), ImageFault> {
        self.read_image_into(set, block, out)
    }

    fn drop_image(&mut self, set: u32) -> Result<(), ImageFault> {
        self.drop_image(set)
    }

    fn cut(&mut self, set: u32) -> Result<(), NoMirror> {
        self.cut(set);
        Ok(())
    }
}
