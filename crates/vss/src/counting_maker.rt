ghost use Rattle.std.specs.Prelude.{◌≡◌, None};
ghost use Rattle.volume_device.specs.OnHost.{host_maker_faults, devices_out};
ghost use Rattle.volume_device.specs.Messages.{is_memory};

use crate::counted_device::CountedDevice;
use crate::progress::Progress;
use std::alloc::Global;
use std::sync::Arc;
use volume_device::{HostMaker, MakeFault, Maker, Store};
use vss_names::Text;

/// The maker of the host's devices, of which each block that is read or lent is counted.
#[derive(Drop)]
pub struct CountingMaker {
    pub maker: HostMaker,
    pub progress: Arc<Progress, Global>,
}

impl Maker for CountingMaker {
    type Made = CountedDevice;

    ghost tells = { λ m store. is_memory store };

    ghost named = { λ m. None };

    ghost kept = { λ m. None };

    ghost places = { λ m. devices_out m.maker };

    ghost count = { λ m. host_maker_faults m.maker };

    fn make(
        &mut self,
        alloc: Global,
        store: &Store,
        name: &Text,
        blocks: u32,
    ) -> Result<CountedDevice, MakeFault> {
        let Ok(progress) = Arc::try_clone(&self.progress) else {
            return Err(MakeFault::OutOfMemory);
        };
        let device = self.maker.make(alloc, store, name, blocks)?;
        Ok(CountedDevice { device, progress })
    }

    fn take_back(&mut self, device: CountedDevice) {
        self.maker.take_back(device.device);
    }

    fn faults(&self) -> u64 {
        self.maker.faults()
    }
}
