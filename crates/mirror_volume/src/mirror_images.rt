//! A volume with mirrors is a volume with images.

ghost use Rattle.std.specs.Prelude.{None};
ghost use Rattle.mirror_volume.specs.Mirrors.{StandsFor, faults_of, ready_count, tells};

use crate::image_volume::ImageVolume;
use crate::mirror_volume::MirrorVolume;
use crate::no_mirror::NoMirror;
use block_data::Payload;
use cow_volume::{Cause, ImageFault, WriteFault, Written};
use volume_device::Device;

impl<D: Device> ImageVolume for MirrorVolume<D> {
    ghost stands = { λ v h. StandsFor D.Device v h };

    ghost tells = { λ v. tells D.told v };

    ghost size = { λ v. D.size v.primary };

    ghost slots = { λ v. None };

    ghost sets = { λ v. v.images };

    ghost ready_for = { λ v. ready_count v };

    ghost count = { λ v. faults_of D.count v };

    ghost per_cut = { 1 };

    ghost sets_are = { λ v h stood. stood.sets };

    fn blocks(&self) -> u32 {
        self.blocks()
    }

    fn images(&self) -> &[u32] {
        self.images()
    }

    fn ready(&self) -> u32 {
        self.ready()
    }

    fn write(&mut self, block: u32, payload: &Payload) -> Result<Written, WriteFault> {
        self.write(block, payload)
    }

    fn read_into(&mut self, block: u32, out: &mut [u8]) -> Result<(), Cause> {
        self.read_into(block, out)
    }

    fn read_image_into(&mut self, set: u32, block: u32, out: &mut [u8]) -> Result<(), ImageFault> {
        self.read_image_into(set, block, out)
    }

    fn drop_image(&mut self, set: u32) -> Result<(), ImageFault> {
        self.drop_image(set)
    }

    fn cut(&mut self, set: u32) -> Result<(), NoMirror> {
        self.cut(set)
    }
}
