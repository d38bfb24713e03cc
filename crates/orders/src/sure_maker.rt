ghost use Rattle.std.specs.Prelude.{◌≡◌, [], Some, None, true};
ghost use Rattle.volume_device.specs.InMemory.{plan_of, names_of, places_of};

use crate::sure_device::SureDevice;
use std::alloc::Global;
use volume_device::{MakeFault, Maker, MemMaker, Store};
use vss_names::Text;

/// A maker of devices in memory of which no call ever fails.
#[derive(Debug, Drop)]
pub struct SureMaker {
    maker: MemMaker,
    ghost unplanned: { plan_of maker ≡ [] },
}

impl SureMaker {
    pub fn new(alloc: Global) -> SureMaker {
        SureMaker {
            maker: MemMaker::new(alloc, Vec::new(alloc)),
        }
    }
}

impl Maker for SureMaker {
    type Made = SureDevice;

    ghost tells = { λ m store. true };

    ghost named = { λ m. Some (names_of m.maker) };

    ghost kept = { λ m. None };

    ghost places = { λ m. places_of m.maker };

    ghost count = { λ m. 0 };

    fn make(
        &mut self,
        alloc: Global,
        store: &Store,
        name: &Text,
        blocks: u32,
    ) -> Result<SureDevice, MakeFault> {
        match self.maker.make(alloc, store, name, blocks) {
            Ok(device) => Ok(SureDevice::of(device)),
            Err(MakeFault::OutOfMemory) => Err(MakeFault::OutOfMemory),
            Err(MakeFault::Failed) => unreachable!(),
        }
    }

    fn take_back(&mut self, device: SureDevice) {
        self.maker.take_back(device.into_inner());
    }

    fn faults(&self) -> u64 {
        0
    }
}
