ghost use Rattle.std.specs.Prelude.{◌≡◌, ◌<◌, ◌≤◌, ◌+◌, ◌-◌, ◌++◌, ◌∷◌, ◌↔◌, ◌⊎◌, [], ℕ, Bool, true, List, length, map, Option, Some, None, IfOk, OnOk, OnErr, IsErrOf, IsTrue, IsSome, IfSome, if◌then◌else◌, vec_capacity, replicate};
ghost use Rattle.vss_names.specs.Faults.{counted, Rose};

use crate::device::Device;
use crate::make_fault::MakeFault;
use crate::maker::Maker;
use crate::mem_device::MemDevice;
use crate::plan::Plan;
use crate::planned::Planned;
use crate::store::Store;
use std::alloc::Global;
use vss_names::Text;

/// A maker of devices in memory, which keeps the names of those that it made and the devices that it gets back. A plan says which it refuses and which calls
/// of the others fail.
#[derive(Debug, Drop)]
pub struct MemMaker {
    plan: Plan,
    names: Vec<Text>,
    devices: Vec<MemDevice>,
    places: usize,
    count: u64,
    ghost room: { length devices.items + places ≤ vec_capacity devices },
}

impl MemMaker {
    ghost use Rattle.volume_device.specs.InMemory.{plan_of, names_of, returned_of, places_of, maker_faults_of};

    /// A maker with this plan, which has got no device back.
    pub fn new(alloc: Global, plan: Vec<Planned>) -> MemMaker
        ensures plan { plan_of result ≡ plan.items }
        ensures names { names_of result ≡ [] }
        ensures returned { returned_of result ≡ [] }
        ensures places { places_of result ≡ 0 }
        ensures faults { maker_faults_of result ≡ 0 }
    {
        MemMaker {
            plan: Plan::of(plan),
            names: Vec::new(alloc),
            devices: Vec::new(alloc),
            places: 0,
            count: 0,
        }
    }

    /// The names of the devices that it made, in order.
    pub fn names(&self) -> &[Text]
        ensures { map (λ name. name.bytes) result.now ≡ names_of self.now }
    {
        &self.names
    }

    /// The devices that were given back, in order.
    pub fn returned(&self) -> &[MemDevice]
        ensures { result.now ≡ returned_of self.now }
    {
        &self.devices
    }
}

impl Maker for MemMaker {
    ghost use Rattle.volume_device.specs.InMemory.{faults_of, plan_of, names_of, returned_of, places_of, maker_faults_of, IsMakeOf};

    type Made = MemDevice;

    ghost tells = { λ m store. true };

    ghost named = { λ m. Some (names_of m) };

    ghost kept = { λ m. Some (returned_of m) };

    ghost places = { places_of };

    ghost count = { maker_faults_of };

    fn make(
        &mut self,
        alloc: Global,
        store: &Store,
        name: &Text,
        blocks: u32,
    ) -> Result<MemDevice, MakeFault>
        ensures made { IsMakeOf self.old self.new name.now.bytes blocks result }
        ensures returned { returned_of self.new ≡ returned_of self.old }
        ensures later { maker_faults_of self.old ≤ maker_faults_of self.new }
    {
        if self.plan.refuses(name.bytes()) {
            let _ = self.plan.take(name.bytes());
            self.count = self.count.saturating_add(1);
            return Err(MakeFault::Failed);
        }
        let made = Text::copy(alloc, name.bytes())?;
        if self.names.reserve(1).is_err() || self.devices.reserve(self.places + 1).is_err() {
            return Err(MakeFault::OutOfMemory);
        }
        let device = MemDevice::new(alloc, blocks)?;
        let _ = self.names.push(made);
        self.places += 1;
        match self.plan.take(name.bytes()) {
            Some(row) => Ok(device.failing(row.reads, row.writes, row.flushes)),
            None => Ok(device),
        }
    }

    fn take_back(&mut self, device: MemDevice)
        ensures faults { maker_faults_of self.new ≡ counted (maker_faults_of self.old) (faults_of device) }
        ensures kept { 0 < places_of self.old → returned_of self.new ≡ returned_of self.old ++ device ∷ [] }
        ensures dropped { places_of self.old ≡ 0 → returned_of self.new ≡ returned_of self.old }
        ensures places { places_of self.new ≡ places_of self.old - 1 }
        ensures plan { plan_of self.new ≡ plan_of self.old }
        ensures names { names_of self.new ≡ names_of self.old }
        ensures later { maker_faults_of self.old ≤ maker_faults_of self.new }
    {
        self.count = self.count.saturating_add(device.faults());
        if self.places > 0 {
            self.places -= 1;
            let _ = self.devices.push(device);
        }
    }

    fn faults(&self) -> u64 {
        self.count
    }
}
