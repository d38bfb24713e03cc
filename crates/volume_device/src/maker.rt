//! What every maker of devices promises.

ghost use Rattle.std.specs.Prelude.{◌≡◌, ◌<◌, ◌≤◌, ◌+◌, ◌-◌, ◌++◌, ◌∷◌, [], ℕ, Bool, List, Option, IsSome, IsTrue, OnOk, OnErr, IfOk, IsErrOf, IfSome, option_map, replicate};
ghost use Rattle.vss_names.specs.Faults.{Rose, counted};
ghost use Rattle.block_data.specs.BlockBytes.{zeros};
ghost use Rattle.volume_device.specs.declared.store.Store.{Store};

use crate::device::Device;
use crate::make_fault::MakeFault;
use crate::store::Store;
use std::alloc::Global;
use vss_names::Text;

/// Makes devices of zero blocks and takes them back. Its count of faults has the counts of the devices that it
/// got back in it.
pub trait Maker: Drop {
    type Made: Device + Send + Sync;

    /// Whether each device that it makes in a store tells its blocks. This never changes.
    ghost tells: { Self → Store → Bool };

    /// The names of the devices that it made, in order, where it tells them. Whether it tells them never changes.
    ghost named: { Self → Option (List (List ℕ)) };

    /// The devices that it got back, in order, where it keeps them. Whether it keeps them never changes.
    ghost kept: { Self → Option (List Self.Made) };

    /// For how many devices it has a free place. Each device that it makes adds one.
    ghost places: { Self → ℕ };

    /// How often it failed, with the faults of the devices that it got back.
    ghost count: { Self → ℕ };

    /// A device of so many zero blocks. The name is new in its store.
    fn make(
        &mut self,
        alloc: Global,
        store: &Store,
        name: &Text,
        blocks: u32,
    ) -> Result<Self::Made, MakeFault>
        ensures size { IfOk result (λ device. Self.Made.size device ≡ blocks) }
        ensures zero { IfOk result (λ device. IfSome (Self.Made.told device) (λ told. told ≡ replicate blocks zeros)) }
        ensures told { IfOk result (λ device. IsTrue (tells self.old store.now) → IsSome (Self.Made.told device)) }
        ensures fresh { IfOk result (λ device. Self.Made.count device ≡ 0) }
        ensures tells { tells self.new ≡ tells self.old }
        ensures named { OnOk result (named self.new ≡ option_map (λ names. names ++ name.now.bytes ∷ []) (named self.old)) }
        ensures unnamed { OnErr result (named self.new ≡ named self.old) }
        ensures kept { kept self.new ≡ kept self.old }
        ensures places { OnOk result (places self.new ≡ places self.old + 1) }
        ensures fewer { OnErr result (places self.old ≤ places self.new) }
        ensures later { count self.old ≤ count self.new }
        ensures same { OnOk result (count self.new ≡ count self.old) }
        ensures unmade { IsErrOf result MakeFault.OutOfMemory → count self.new ≡ count self.old }
        ensures rose { IsErrOf result MakeFault.Failed → Rose (count self.old) (count self.new) };

    /// Takes a device back, without taking memory. It is dropped where no place is free.
    fn take_back(&mut self, device: Self::Made)
        ensures count { count self.new ≡ counted (count self.old) (Self.Made.count device) }
        ensures later { count self.old ≤ count self.new }
        ensures kept { 0 < places self.old → kept self.new ≡ option_map (λ devices. devices ++ device ∷ []) (kept self.old) }
        ensures dropped { places self.old ≡ 0 → kept self.new ≡ kept self.old }
        ensures places { places self.new ≡ places self.old - 1 }
        ensures tells { tells self.new ≡ tells self.old }
        ensures named { named self.new ≡ named self.old };

    fn faults(&self) -> u64
        ensures { result ≡ count self.now };
}
