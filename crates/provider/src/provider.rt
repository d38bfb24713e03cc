ghost use Rattle.std.specs.Prelude.{◌≡◌, ◌≢◌, ◌<◌, ◌≤◌, ◌*◌, ℕ, [], true, false, length, map, slice_get, Some, is_some, vec_capacity, IfOk, IfErr, IfSome, OnOk, All};
ghost use Rattle.hex.specs.Hex.{IsBytes};
ghost use Rattle.block_data.specs.BlockBytes.{payload_bytes};
ghost use Rattle.write_history.specs.History.{fresh, sets_of};
ghost use Rattle.write_history.specs.Slots.{used, used_by};
ghost use Rattle.set_agenda.specs.Agenda.{is_among, is_orders, is_over_volumes};
ghost use Rattle.set_agenda.specs.declared.group.Group.TheVariants.{Commit, Flush};
ghost use Rattle.scenario.specs.Bounds.{IsBlock};
ghost use Rattle.scenario.specs.Plan.{Plan, blocks_of};
ghost use Rattle.scenario.specs.Places.{IsPlaceOf};
ghost use Rattle.cow_volume.specs.StandsFor.{GroupValue};
ghost use Rattle.cow_volume.specs.Parts.{IsLentBy};
ghost use Rattle.provider.specs.Groups.{AreFit, AreFresh, AreGroups, AreWhole, HasGroups, IfStandFor, history_at, AreKept, AreLasting, HasCause, HasSyncCause, IsSynced, devices_of, fault_of, volume_place};
ghost use Rattle.provider.specs.Calls.{AreWithout, HasImage, HasImageCause, HasRoom, IsDigestedAt, IsDigestShown, IsDropped, IsPut, IsQuiet, IsRevert, IsRoomMade, IsShown, IsThere, StopsAfter};
ghost use Rattle.provider.specs.Words.{counted_as, LastsAt, NeverFails};
ghost use Rattle.provider.specs.Preparing.{CanCutOn, HasJoined, HasStepCause, IsCutOn, refusal, step_taken};

use crate::digested::Digested;
use crate::digesting::digests_in;
use crate::digests_of::DigestsOf;
use crate::dropping::{drop_on, drop_set_in};
use crate::ending::list_devices;
use crate::hashing::digest_of;
use crate::making::device_count;
use crate::preparing::refusal;
use crate::renumbering::renumber;
use block_data::{BLOCK, BlockBuf, Payload};
use cow_volume::{Cause, CowGroup, ImageFault, RevertFault};
use scenario::Scenario;
use set_agenda::Group;
use std::alloc::Global;
use std::marker::Model;
use std::thread::Threads;
use volume_device::Device;
use vss_names::{MOST_VOLUMES_OF_A_SET, OutOfMemory, VssResult};
use write_history::Evicted;

/// Groups of volumes over devices, with the set that is being prepared.
#[derive(Drop)]
pub struct Provider<D: Device> {
    groups: Vec<CowGroup<D>>,
    /// 0 until it is known.
    set: u32,
    /// In order of `add`.
    volumes: Vec<u32>,
    /// The list in which the devices go back; empty until then.
    list: Vec<D>,
    /// A block of a device that does not lend.
    block: BlockBuf,
}

impl<D: Device> Model for Provider<D> {
    ghost use Rattle.provider.specs.Preparing.{ProviderValue, IsProvider};

    ghost Value = { ProviderValue D };

    ghost view = { λ p. record { groups = p.groups.items; set = p.set; volumes = p.volumes.items } };

    ghost invariant = { λ p. IsProvider p.groups.items p.volumes p.list };
}

impl<D: Device> Provider<D> {
    /// A provider over groups, in their order. It takes all memory that is needed later. Where memory is refused the groups are
    /// given back as they are.
    pub fn new(alloc: Global, groups: Vec<CowGroup<D>>) -> Result<Provider<D>, Vec<CowGroup<D>>>
        requires { length groups.items < 4294967296 }
        ensures made { IfOk result (λ made. made ≡ record { groups = groups.items; set = 0; volumes = [] }) }
        ensures whole { IfOk result (λ made. AreWhole made.groups) }
        ensures fresh { IfOk result (λ made. (s : Plan) → AreFresh D.told s groups.items → AreGroups D.told s made.groups (map (λ row. fresh) s.volumes)) }
        ensures refused { IfErr result (λ given. given.items ≡ groups.items) }
    {
        let count = device_count(&groups);
        let Ok(volumes) = Vec::with_capacity(alloc, MOST_VOLUMES_OF_A_SET) else {
            return Err(groups);
        };
        let Ok(list) = Vec::with_capacity(alloc, count) else {
            return Err(groups);
        };
        let Ok(block) = BlockBuf::zeroed(alloc) else {
            return Err(groups);
        };
        Ok(Provider {
            groups,
            set: 0,
            volumes,
            list,
            block,
        })
    }
    /// Makes room for a write of a block. Where its old bytes need a slot for a copy and none is free, images go, those of the group's
    /// least set together, until one is. The set up to which they went is answered, 0 where none did; `gone` then has them, in order of
    /// sets and then of volumes, and no memory is taken for it.
    pub fn make_room(
        &mut self,
        scenario: &Scenario,
        volume: u32,
        block: u32,
        gone: &mut Vec<Evicted>,
    ) -> u32
        requires block { IsBlock scenario.now volume block }
        requires has { HasGroups scenario.now self.old.groups }
        requires space { 512 * length scenario.now.volumes ≤ vec_capacity gone.old }
        ensures room { IsRoomMade D.Device scenario.now self.old.groups self.new.groups volume block gone.new.items result }
        ensures few { length gone.new.items ≤ 512 * length scenario.now.volumes }
        ensures space { vec_capacity gone.new ≡ vec_capacity gone.old }
        ensures set { self.new ≡ record self.old { groups = self.new.groups } }
    {
        let place = scenario.place(volume);
        let group = &mut self.groups[place.group as usize];
        let up_to = group.make_room(place.volume, block, gone);
        renumber(scenario, place.group, gone);
        up_to
    }

    /// Writes a block that has room. Its old bytes are copied where they have to be, and then it is overwritten.
    pub fn put(
        &mut self,
        scenario: &Scenario,
        volume: u32,
        block: u32,
        payload: &Payload,
    ) -> Result<(), Cause>
        requires block { IsBlock scenario.now volume block }
        requires has { HasGroups scenario.now self.old.groups }
        requires room { HasRoom scenario.now self.old.groups volume block }
        ensures put { IsPut D.Device scenario.now self.old.groups self.new.groups volume (record { block = block; bytes = payload_bytes payload.now }) result }
        ensures set { self.new ≡ record self.old { groups = self.new.groups } }
    {
        let place = scenario.place(volume);
        self.groups[place.group as usize].put(place.volume, block, payload)
    }

    /// Lends a block of a volume, as it is or as the image of a set shows it, in place. None where the device that has it does not
    /// lend. The error is NoSuchImage alone.
    pub fn lend(
        &self,
        scenario: &Scenario,
        volume: u32,
        set: Option<u32>,
        block: u32,
    ) -> Result<Option<&[u8]>, ImageFault>
        requires block { IsBlock scenario.now volume block }
        requires has { HasGroups scenario.now self.now.groups }
        ensures shown { IfOk result (λ lent. IfSome lent (λ bytes. IsShown D.told scenario.now self.now.groups volume set block bytes.now)) }
        ensures whole { IfOk result (λ lent. IfSome lent (λ bytes. length bytes.now ≡ BLOCK)) }
        ensures there { OnOk result (IsThere D.told scenario.now self.now.groups volume set true) }
        ensures lends { (g u : ℕ) (x : GroupValue D) → IsPlaceOf scenario.now volume g u → slice_get self.now.groups g ≡ Some x → IfOk result (λ lent. IsLentBy D.lending x u set block (is_some lent)) }
        ensures none { IfErr result (λ fault. (fault ≡ ImageFault.NoSuchImage) × IsThere D.told scenario.now self.now.groups volume set false) }
    {
        let place = scenario.place(volume);
        self.groups[place.group as usize].lend(place.volume, set, block)
    }

    /// Reads a block of a volume, as it is or as the image of a set shows it, into `out`, which after a failed read holds any bytes.
    pub fn read_into(
        &mut self,
        scenario: &Scenario,
        volume: u32,
        set: Option<u32>,
        block: u32,
        out: &mut [u8],
    ) -> Result<(), ImageFault>
        requires block { IsBlock scenario.now volume block }
        requires has { HasGroups scenario.now self.old.groups }
        requires whole { length out.old ≡ BLOCK }
        ensures shown { OnOk result (IsShown D.told scenario.now self.old.groups volume set block out.new) }
        ensures quiet { IsQuiet D.Device scenario.now self.old.groups self.new.groups volume }
        ensures cause { HasImageCause D.Device scenario.now volume set (fault_of result) self.old.groups self.new.groups }
        ensures set { self.new ≡ record self.old { groups = self.new.groups } }
    {
        let place = scenario.place(volume);
        self.groups[place.group as usize].read_into(place.volume, set, block, out)
    }

    /// The SHA-256 of all blocks of a volume, as it is or as the image of a set shows it, in order. Lent blocks are hashed in place.
    pub fn digest(
        &mut self,
        scenario: &Scenario,
        volume: u32,
        set: Option<u32>,
    ) -> Result<[u8; 32], ImageFault>
        requires volume { volume < length scenario.now.volumes }
        requires has { HasGroups scenario.now self.old.groups }
        ensures digest { IfOk result (IsDigestShown D.told scenario.now self.old.groups volume set) }
        ensures wide { IfOk result (λ digest. (length digest ≡ 32) × IsBytes digest) }
        ensures quiet { IsQuiet D.Device scenario.now self.old.groups self.new.groups volume }
        ensures cause { HasImageCause D.Device scenario.now volume set (fault_of result) self.old.groups self.new.groups }
        ensures set { self.new ≡ record self.old { groups = self.new.groups } }
    {
        let place = scenario.place(volume);
        let group = &mut self.groups[place.group as usize];
        digest_of(group, &mut self.block, place.volume, set)
    }

    /// The digests of all volumes, in order, each followed by those of its images if they are wanted, the oldest first. They are
    /// made side by side, by as many threads as there are processors, of blocks that are lent or read by several threads. A row
    /// has none if that could not be done. Memory is taken for the time of the call, a block for each thread.
    pub fn digests<R: Threads + Sync>(
        &self,
        rt: &R,
        alloc: Global,
        scenario: &Scenario,
        wanted: DigestsOf,
    ) -> Result<Vec<Digested>, OutOfMemory>
    where
        D: Sync,
        requires { HasGroups scenario.now self.now.groups }
        ensures { IfOk result (λ rows. All (IsDigestedAt D.told scenario.now self.now.groups) rows.items) }
    {
        digests_in(rt, alloc, &self.groups, scenario, wanted)
    }

    /// The sets of the images of a volume, the oldest first.
    pub fn images(&self, scenario: &Scenario, volume: u32) -> &[u32]
        requires volume { volume < length scenario.now.volumes }
        requires has { HasGroups scenario.now self.now.groups }
        ensures sets { IfStandFor D.told scenario.now self.now.groups (λ hs. result.now ≡ sets_of (history_at hs volume).images) }
        ensures few { length result.now ≤ 512 }
    {
        let place = scenario.place(volume);
        self.groups[place.group as usize].images(place.volume)
    }

    /// Whether the image of a set stands on a volume.
    pub fn has_image(&self, scenario: &Scenario, set: u32, volume: u32) -> bool
        requires volume { volume < length scenario.now.volumes }
        requires has { HasGroups scenario.now self.now.groups }
        ensures { HasImage D.told scenario.now self.now.groups volume set result }
    {
        self.images(scenario, volume).contains(&set)
    }

    /// How many slots the images of a volume use.
    pub fn used(&self, scenario: &Scenario, volume: u32) -> u32
        requires volume { volume < length scenario.now.volumes }
        requires has { HasGroups scenario.now self.now.groups }
        ensures { IfStandFor D.told scenario.now self.now.groups (λ hs. result ≡ used (blocks_of scenario.now volume) (history_at hs volume).writes (history_at hs volume).images) }
    {
        let place = scenario.place(volume);
        self.groups[place.group as usize].used(place.volume)
    }

    /// How many slots the image of a set on a volume uses; None where no such image stands.
    pub fn used_by(&self, scenario: &Scenario, set: u32, volume: u32) -> Option<u32>
        requires volume { volume < length scenario.now.volumes }
        requires has { HasGroups scenario.now self.now.groups }
        ensures { IfStandFor D.told scenario.now self.now.groups (λ hs. result ≡ used_by (blocks_of scenario.now volume) (history_at hs volume).writes (history_at hs volume).images set) }
    {
        let place = scenario.place(volume);
        self.groups[place.group as usize].used_by(place.volume, set)
    }

    /// The image of a set goes from a volume; its copies go to the next older image, where that lacks them. Whether it stood.
    pub fn drop_image(&mut self, scenario: &Scenario, set: u32, volume: u32) -> bool
        requires volume { volume < length scenario.now.volumes }
        requires has { HasGroups scenario.now self.old.groups }
        ensures dropped { IsDropped D.Device scenario.now self.old.groups self.new.groups volume set result }
        ensures set { self.new ≡ record self.old { groups = self.new.groups } }
    {
        let place = scenario.place(volume);
        drop_on(&mut self.groups[place.group as usize], place.volume, set)
    }

    /// The images of a set go from all volumes. How many stood.
    pub fn drop_set(&mut self, set: u32) -> usize
        ensures without { AreWithout D.Device self.old.groups self.new.groups set result }
        ensures set { self.new ≡ record self.old { groups = self.new.groups } }
    {
        drop_set_in(&mut self.groups, set)
    }

    /// Brings a volume back to the image of a set, which stays; the newer images of the volume go. Where `most` is given, it restores
    /// no more blocks than that: where there are more it ends as if the volume's device had failed then.
    pub fn revert(
        &mut self,
        scenario: &Scenario,
        set: u32,
        volume: u32,
        most: Option<u32>,
    ) -> Result<(), RevertFault>
        requires volume { volume < length scenario.now.volumes }
        requires has { HasGroups scenario.now self.old.groups }
        ensures revert { IsRevert (counted_as D.Device (is_some most)) scenario.now self.old.groups self.new.groups volume set result }
        ensures stops { NeverFails D.count → (k : ℕ) → most ≡ Some k → StopsAfter D.told scenario.now self.old.groups volume set k result }
        ensures set { self.new ≡ record self.old { groups = self.new.groups } }
    {
        let place = scenario.place(volume);
        self.groups[place.group as usize].revert_some(place.volume, set, most)
    }

    /// A volume joins the set. It is refused where it is in the set, where the set has 64 volumes, or where 512 images stand on the
    /// volume: the first of these that holds.
    pub fn begin_prepare(&mut self, scenario: &Scenario, volume: u32) -> Result<(), VssResult>
        requires volume { volume < length scenario.now.volumes }
        requires has { HasGroups scenario.now self.old.groups }
        ensures joined { HasJoined self.old self.new volume result }
        ensures refused { IfStandFor D.told scenario.now self.old.groups (λ hs. fault_of result ≡ refusal volume self.old.volumes (length (history_at hs volume).images)) }
    {
        let images = self.images(scenario, volume).len();
        if let Some(why) = refusal(volume, &self.volumes, images) {
            return Err(why);
        }
        self.volumes.push_reserved(volume);
        Ok(())
    }

    /// The set has all its volumes, and this number.
    pub fn end_prepare(&mut self, set: u32)
        requires { 0 < set }
        ensures { self.new ≡ record self.old { set = set } }
    {
        self.set = set;
    }

    /// The volumes of the set that is being prepared, in order of `begin_prepare`.
    pub fn volumes(&self) -> &[u32]
        ensures volumes { result.now ≡ self.now.volumes }
        ensures few { length self.now.volumes ≤ 64 }
    {
        &self.volumes
    }

    /// The number of the set that is being prepared; 0 where it has none yet.
    pub fn set(&self) -> u32
        ensures { result ≡ self.now.set }
    {
        self.set
    }

    /// Whether a volume is in the set that is being prepared.
    pub fn is_preparing(&self, volume: u32) -> bool
        ensures { result ≡ is_among volume self.now.volumes }
    {
        self.volumes.contains(&volume)
    }

    /// Makes a step of the provider, of a volume where the group has one for each. In a Flush step the volume's device is flushed, and
    /// in a Commit step the image of the set is cut on the volume, as it is now. Nothing else changes anything.
    pub fn step(
        &mut self,
        scenario: &Scenario,
        group: Group,
        volume: Option<u32>,
    ) -> Result<(), Cause>
        requires has { HasGroups scenario.now self.old.groups }
        requires steps { is_orders group ≡ false }
        requires of_volume { is_some volume ≡ is_over_volumes group }
        requires in_range { IfSome volume (λ v. v < length scenario.now.volumes) }
        requires cut { group ≡ Commit → IfSome volume (CanCutOn D.told scenario.now self.old) }
        ensures stands { IfStandFor D.told scenario.now self.old.groups (λ hs. AreGroups D.told scenario.now self.new.groups (step_taken group self.old.set volume hs)) }
        ensures kept { AreKept D.Device self.old.groups self.new.groups }
        ensures cause { HasStepCause D.count scenario.now group volume result self.old.groups self.new.groups }
        ensures devices { (group ≢ Flush) → devices_of self.new.groups ≡ devices_of self.old.groups }
        ensures lasts { group ≡ Flush → OnOk result (IfSome volume (λ v. LastsAt D.Device (volume_place scenario.now v) (devices_of self.new.groups))) }
        ensures set { self.new ≡ record self.old { groups = self.new.groups } }
    {
        let Some(volume) = volume else {
            return Ok(());
        };
        match group {
            Group::Flush => self.flush(scenario, volume),
            Group::Commit => {
                self.commit(scenario, volume);
                Ok(())
            }
            _ => Ok(()),
        }
    }

    /// Brings all accepted writes of a volume to where they last. A fault is the volume's device's.
    pub fn flush(&mut self, scenario: &Scenario, volume: u32) -> Result<(), Cause>
        requires volume { volume < length scenario.now.volumes }
        requires has { HasGroups scenario.now self.old.groups }
        ensures quiet { IsQuiet D.Device scenario.now self.old.groups self.new.groups volume }
        ensures cause { HasCause D.count scenario.now volume (fault_of result) self.old.groups self.new.groups }
        ensures own { IfErr result (λ cause. cause ≡ Cause.Volume) }
        ensures lasts { OnOk result (LastsAt D.Device (volume_place scenario.now volume) (devices_of self.new.groups)) }
        ensures set { self.new ≡ record self.old { groups = self.new.groups } }
    {
        let place = scenario.place(volume);
        self.groups[place.group as usize].flush(place.volume)
    }

    /// The image of the set is cut on one of its volumes, the newest there.
    fn commit(&mut self, scenario: &Scenario, volume: u32)
        requires volume { volume < length scenario.now.volumes }
        requires has { HasGroups scenario.now self.old.groups }
        requires can { CanCutOn D.told scenario.now self.old volume }
        ensures cut { IsCutOn D.Device scenario.now self.old.groups self.new.groups volume self.old.set }
        ensures set { self.new ≡ record self.old { groups = self.new.groups } }
    {
        let place = scenario.place(volume);
        self.groups[place.group as usize].cut(place.volume, self.set);
    }

    /// The set is over and leaves nothing: its images go from all volumes. No set is being prepared then. How many images stood.
    pub fn abort(&mut self) -> usize
        ensures without { AreWithout D.Device self.old.groups self.new.groups self.old.set result }
        ensures set { self.new ≡ record { groups = self.new.groups; set = 0; volumes = [] } }
    {
        let stood = self.drop_set(self.set);
        self.finish();
        stood
    }

    /// The set is over and its images stay. No set is being prepared then.
    pub fn finish(&mut self)
        ensures { self.new ≡ record { groups = self.old.groups; set = 0; volumes = [] } }
    {
        self.set = 0;
        self.volumes.clear();
    }

    /// How many groups there are.
    pub fn groups(&self) -> u32
        ensures { result ≡ length self.now.groups }
    {
        self.groups.len() as u32
    }

    /// Writes the records of a group's copies to its area's device, and brings all that was written to that to where it lasts. A fault
    /// is the area's device's.
    pub fn sync(&mut self, group: u32) -> Result<(), Cause>
        requires { group < length self.old.groups }
        ensures synced { IsSynced D.Device self.old.groups self.new.groups group }
        ensures lasting { OnOk result ((s : Plan) → AreLasting D.Device s self.old.groups self.new.groups group) }
        ensures cause { (s : Plan) → HasGroups s self.old.groups → HasSyncCause D.count s group result self.old.groups self.new.groups }
        ensures set { self.new ≡ record self.old { groups = self.new.groups } }
    {
        self.groups[group as usize].sync()
    }

    /// How many devices there are: one for each volume and one for each area. Each has the size that was declared.
    pub fn devices(&self) -> usize
        requires { length self.now.groups < 4294967296 }
        ensures count { result ≡ length (devices_of self.now.groups) }
        ensures fit { AreFit D.size self.now.groups }
    {
        device_count(&self.groups)
    }

    /// The groups, as they are.
    pub fn into_groups(self) -> Vec<CowGroup<D>>
        ensures { result.items ≡ self.groups }
    {
        self.groups
    }

    /// All devices, as they are: for each group those of its volumes in order, and then its area's.
    pub fn into_devices(self) -> Vec<D>
        ensures { result.items ≡ devices_of self.groups }
    {
        let Provider { groups, list, .. } = self;
        list_devices(groups, list)
    }
}
