ghost use Rattle.std.specs.Prelude.{ℕ, ◌≡◌, ◌<◌, ◌≤◌, Bool, true, List, [], length, map, slice_get, Option, Some, None, is_some, OnErr, OnOk, IfOk, IfErr, IfSome, IsErr, IsOk, All};
ghost use Rattle.write_history.specs.History.{point_in, sets_of};
ghost use Rattle.write_history.specs.Slots.{used};
ghost use Rattle.scenario.specs.Plan.{Plan, blocks_of};
ghost use Rattle.scenario.specs.declared.op.Op.TheVariants as op;
ghost use Rattle.coordinator.specs.OpenOrders.{standing_in};
ghost use Rattle.sessions.specs.Moves.{IsNextStep};
ghost use Rattle.vss_model.specs.Acts.{Act, state, enabled};
ghost use Rattle.vss_model.specs.State.{history_of, kept};
ghost use Rattle.vss_model.specs.declared.event.Event.TheVariants.{Line, Provider as ProviderEvent, Idle, Answer as AnswerEvent};
ghost use Rattle.cow_volume.specs.Calls.{LastsAt};
ghost use Rattle.provider.specs.Groups.{AreSized, devices_of, area_place, volume_place, RoseAlone};
ghost use Rattle.vss_world.specs.Stands.{tells_of, HasFailed, IsOf, Stands, IsStanding, IfStands};
ghost use Rattle.vss_world.specs.Changes.{IsDigestOf, IsDigestedIf};
ghost use Rattle.vss_world.specs.Moves.{IsEvent, IsStepped, IsMoved, StepLasts, AreListed, listed_after, lists_sets, takes_memory, simple_outcome};
ghost use Rattle.vss_world.specs.Quiet.{AreNew, IsQuiet, IsSynced, IsAreaHeld};

use crate::beginning::Rest;
use crate::evicted_images::EvictedImages;
use crate::listed_sets::ListedSets;
use crate::reply::Reply;
use crate::showing::kept_sets;
use block_data::BlockBuf;
use cow_volume::{Cause, CowGroup};
use provider::{DigestsOf, Provider, ReadyDigests};
use scenario::Scenario;
use sessions::Sessions;
use set_agenda::Group;
use std::alloc::Global;
use std::marker::Model;
use std::thread::Threads;
use volume_device::Device;
use vss_model::{Event, Evicted, Told};
use vss_names::OutOfMemory;
use writer_calls::Standing;
use writer_state::WriterRow;

/// The core of the service over devices: it makes each enabled event, and answers it.
#[derive(Drop)]
pub struct World<D: Device> {
    pub(crate) provider: Provider<D>,
    pub(crate) sessions: Sessions,
    pub(crate) listed: ListedSets,
    pub(crate) evicted: EvictedImages,
    /// A block of a device that does not lend.
    pub(crate) block: BlockBuf,
}

impl<D: Device> Model for World<D> {
    ghost use Rattle.provider.specs.Groups.{devices_of};
    ghost use Rattle.vss_world.specs.Stands.{WorldValue};

    ghost Value = { WorldValue D };

    ghost view = { λ w. record { devices = devices_of w.provider.groups; listed = w.listed; evicted = w.evicted; provider = w.provider; sessions = w.sessions } };
}

impl<D: Device> World<D> {
    /// A core over the groups of a scenario, in their order, of which nothing has happened yet. Where memory is refused the groups are
    /// dropped.
    pub fn new(
        alloc: Global,
        scenario: &Scenario,
        groups: Vec<CowGroup<D>>,
    ) -> Result<World<D>, OutOfMemory>
        requires { AreNew D.told scenario.now groups.items }
        ensures stands { IfOk result (λ world. Stands D.told world scenario.now []) }
        ensures of { IfOk result (λ world. IsOf world scenario.now) }
        ensures devices { IfOk result (λ world. world.devices ≡ devices_of groups.items) }
        ensures listed { IfOk result (λ world. world.listed ≡ []) }
        ensures evicted { IfOk result (λ world. world.evicted ≡ []) }
    {
        let _volumes = scenario.volumes();
        let _groups = scenario.groups();
        let Ok(rest) = Rest::new(alloc, scenario) else {
            return Err(OutOfMemory);
        };
        match Provider::new(alloc, groups) {
            Ok(provider) => Ok(World {
                provider,
                sessions: rest.sessions,
                listed: rest.listed,
                evicted: rest.evicted,
                block: rest.block,
            }),
            Err(_groups) => Err(OutOfMemory),
        }
    }

    /// Makes an event, where it is enabled. Want of memory changes nothing.
    pub fn step(
        &mut self,
        alloc: Global,
        scenario: &Scenario,
        event: Event,
    ) -> Result<Reply, OutOfMemory>
        requires of { IsOf self.old scenario.now }
        requires standing { IsStanding D.told self.old scenario.now }
        requires in_range { IsEvent scenario.now event }
        ensures memory { OnErr result (self.new ≡ self.old) }
        ensures takes { IsErr result → takes_memory event ≡ true }
        ensures stepped { IfOk result (IsStepped D.Device self.old self.new scenario.now event) }
        ensures lasts { event ≡ ProviderEvent → IfOk result (StepLasts D.Device self.new scenario.now) }
        ensures listed { IfOk result (λ reply. AreListed reply self.new.listed) }
    {
        let reply = self.make(alloc, scenario, event)?;
        self.end_listing(reply);
        Ok(reply)
    }

    /// Makes an event, where it is enabled. What an earlier step listed stays listed.
    pub(crate) fn make(
        &mut self,
        alloc: Global,
        scenario: &Scenario,
        event: Event,
    ) -> Result<Reply, OutOfMemory>
        requires of { IsOf self.old scenario.now }
        requires standing { IsStanding D.told self.old scenario.now }
        requires in_range { IsEvent scenario.now event }
        ensures memory { OnErr result (self.new ≡ self.old) }
        ensures takes { IsErr result → takes_memory event ≡ true }
        ensures stepped { IfOk result (IsStepped D.Device self.old self.new scenario.now event) }
        ensures lasts { event ≡ ProviderEvent → IfOk result (StepLasts D.Device self.new scenario.now) }
    {
        match event {
            Event::Line { lane, op } => self.line(alloc, scenario, lane, op),
            Event::Answer { writer, answer } => Ok(self.answer(scenario, writer, answer)),
            Event::Provider => Ok(self.make_step(scenario)),
            Event::Idle => Ok(self.idle(scenario)),
        }
    }

    /// After a move that lists no sets, none is listed.
    pub(crate) fn end_listing(&mut self, reply: Reply)
        ensures { self.new ≡ record self.old { listed = listed_after reply self.old.listed } }
    {
        if let Reply::Moved(outcome) = reply {
            if !lists_sets(outcome.told) {
                self.listed.clear();
            }
        }
    }

    /// Whether an event is enabled.
    pub fn is_enabled(&self, scenario: &Scenario, event: Event) -> bool
        requires of { IsOf self.now scenario.now }
        requires standing { IsStanding D.told self.now scenario.now }
        requires in_range { IsEvent scenario.now event }
        ensures { IfStands D.told self.now scenario.now (λ st. result ≡ enabled scenario.now st event) }
    {
        match event {
            Event::Line { lane, op } => self.may_go(scenario, lane, op),
            Event::Answer { writer, .. } => self.sessions.poll(writer).is_some(),
            Event::Provider => self.sessions.is_working(),
            Event::Idle => self.sessions.is_asking(),
        }
    }

    /// The order that a writer has to answer; none where no order of it is open.
    pub fn poll(&self, scenario: &Scenario, writer: u32) -> Option<Standing>
        requires of { IsOf self.now scenario.now }
        requires in_range { writer < length scenario.now.writers }
        ensures { IfStands D.told self.now scenario.now (λ st. result ≡ standing_in st.course writer) }
    {
        self.sessions.poll(writer)
    }

    /// The provider's next step and its volume; none if the provider has no step to make.
    pub fn next_step(&self) -> Option<(Group, Option<u32>)>
        ensures working { (s : Plan) → IfStands D.told self.now s (λ st. is_some result ≡ enabled s st ProviderEvent) }
        ensures step { IfSome result (λ step. IsNextStep self.now.sessions step.0 step.1) }
    {
        self.sessions.next_step()
    }

    /// The writers' rows, in the order of their numbers.
    pub fn rows(&self, scenario: &Scenario) -> &[WriterRow]
        requires of { IsOf self.now scenario.now }
        requires standing { IsStanding D.told self.now scenario.now }
        ensures many { length result.now ≡ length scenario.now.writers }
        ensures rows { IfStands D.told self.now scenario.now (λ st. result.now ≡ st.course.rows) }
    {
        self.sessions.rows()
    }

    /// A writer's row.
    pub fn row(&self, scenario: &Scenario, writer: u32) -> WriterRow
        requires of { IsOf self.now scenario.now }
        requires standing { IsStanding D.told self.now scenario.now }
        requires in_range { writer < length scenario.now.writers }
        ensures { IfStands D.told self.now scenario.now (λ st. Some result ≡ slice_get st.course.rows writer) }
    {
        self.sessions.rows()[writer as usize]
    }

    /// The sets that the last step listed; none where it listed none.
    pub fn listed(&self) -> &[u32]
        ensures sets { result.now ≡ self.now.listed }
        ensures few { length result.now ≤ 512 }
    {
        self.listed.items()
    }

    /// The kept images that the last step evicted, in order of sets and then of volumes; none where it evicted none.
    pub fn evicted(&self) -> &[Evicted]
        ensures images { result.now ≡ self.now.evicted }
        ensures few { length result.now ≤ 65536 }
    {
        self.evicted.items()
    }

    /// The clock, in ticks of one millisecond.
    pub fn now(&self, scenario: &Scenario) -> u64
        ensures { IfStands D.told self.now scenario.now (λ st. result ≡ st.clock) }
    {
        self.sessions.now()
    }

    /// How many slots the images of a volume use.
    pub fn used(&self, scenario: &Scenario, volume: u32) -> u32
        requires of { IsOf self.now scenario.now }
        requires in_range { volume < length scenario.now.volumes }
        ensures { IfStands D.told self.now scenario.now (λ st. result ≡ used (blocks_of scenario.now volume) (history_of st volume).writes (history_of st volume).images) }
    {
        self.provider.used(scenario, volume)
    }

    /// The sets whose images are kept on a volume, oldest first.
    pub fn kept(&self, scenario: &Scenario, volume: u32) -> &[u32]
        requires of { IsOf self.now scenario.now }
        requires in_range { volume < length scenario.now.volumes }
        ensures sets { IfStands D.told self.now scenario.now (λ st. result.now ≡ sets_of (kept st (history_of st volume))) }
        ensures few { length result.now ≤ 512 }
    {
        kept_sets(&self.provider, &self.sessions, scenario, volume)
    }

    /// The SHA-256 of all blocks of a volume, as it is or as its kept image of a set shows it, in order.
    pub fn digest(
        &mut self,
        scenario: &Scenario,
        volume: u32,
        set: Option<u32>,
    ) -> Result<[u8; 32], Cause>
        requires of { IsOf self.old scenario.now }
        requires standing { IfSome set (λ n. IsStanding D.told self.old scenario.now) }
        requires in_range { volume < length scenario.now.volumes }
        requires is_kept { IfSome set (λ n. IfStands D.told self.old scenario.now
            (λ st. is_some (point_in n (kept st (history_of st volume))) ≡ true)) }
        ensures digest { IfOk result (λ digest. IfStands D.told self.old scenario.now (λ st.
            IsDigestOf (tells_of D.told scenario.now self.old.devices) scenario.now st volume set
            digest)) }
        ensures quiet { IsQuiet D.Device self.old self.new scenario.now }
        ensures same { OnOk result (map D.count self.new.devices ≡ map D.count self.old.devices) }
        ensures cause { IfErr result (λ fault. HasFailed scenario.now volume fault
            (map D.count self.old.devices) (map D.count self.new.devices)) }
    {
        match self.provider.digest(scenario, volume, set) {
            Ok(digest) => Ok(digest),
            Err(fault) => Err(fault.cause()),
        }
    }

    /// The digests of all volumes, in order, each followed by those of its images if they are wanted, the oldest first. They are
    /// made side by side, by as many threads as there are processors, of blocks that are lent or read by several threads. A row
    /// has none if that could not be done. Memory is taken for the time of the call, a block for each thread.
    pub fn digests<R: Threads + Sync>(
        &self,
        rt: &R,
        alloc: Global,
        scenario: &Scenario,
        wanted: DigestsOf,
    ) -> Result<ReadyDigests, OutOfMemory>
    where
        D: Sync,
        requires { IsOf self.now scenario.now }
        ensures { IfOk result (λ ready. IfStands D.told self.now scenario.now (λ st. All (IsDigestedIf (tells_of D.told scenario.now self.now.devices) scenario.now st) ready.rows.items)) }
    {
        let rows = self.provider.digests(rt, alloc, scenario, wanted)?;
        Ok(ReadyDigests::new(rows))
    }

    /// Brings all accepted writes of a volume to where they last.
    pub fn flush(&mut self, scenario: &Scenario, volume: u32) -> Result<(), Cause>
        requires of { IsOf self.old scenario.now }
        requires in_range { volume < length scenario.now.volumes }
        ensures quiet { IsQuiet D.Device self.old self.new scenario.now }
        ensures lasts { OnOk result (LastsAt D.Device (volume_place scenario.now volume) self.new.devices) }
        ensures same { OnOk result (map D.count self.new.devices ≡ map D.count self.old.devices) }
        ensures fault { IfErr result (λ fault. fault ≡ Cause.Volume) }
        ensures cause { IfErr result (λ fault. HasFailed scenario.now volume fault (map D.count self.old.devices) (map D.count self.new.devices)) }
    {
        self.provider.flush(scenario, volume)
    }

    /// Writes the records of a group's copies to its area's device, and brings all that was written to that to where it lasts.
    pub fn sync(&mut self, scenario: &Scenario, group: u32) -> Result<(), Cause>
        requires of { IsOf self.old scenario.now }
        requires in_range { group < length scenario.now.groups }
        ensures synced { IsSynced D.Device self.old self.new scenario.now group }
        ensures held { OnOk result (IsAreaHeld D.told self.new scenario.now group) }
        ensures lasts { OnOk result (LastsAt D.Device (area_place group scenario.now.volumes) self.new.devices) }
        ensures same { OnOk result (map D.count self.new.devices ≡ map D.count self.old.devices) }
        ensures fault { IfErr result (λ fault. fault ≡ Cause.Area) }
        ensures cause { IsErr result → RoseAlone (area_place group scenario.now.volumes) (map D.count self.old.devices) (map D.count self.new.devices) }
    {
        let _volumes = scenario.volumes();
        self.provider.sync(group)
    }

    /// How many devices there are: one for each volume and one for each area. Each has the size that was declared.
    pub fn devices(&self, scenario: &Scenario) -> usize
        requires { IsOf self.now scenario.now }
        ensures count { result ≡ length self.now.devices }
        ensures sized { IfStands D.told self.now scenario.now (λ st. AreSized D.size scenario.now self.now.devices) }
    {
        let _groups = scenario.groups();
        self.provider.devices()
    }

    /// The groups, as they are.
    pub fn into_groups(self) -> Vec<CowGroup<D>>
        ensures { result.items ≡ self.provider.groups }
    {
        self.provider.into_groups()
    }

    /// All devices, as they are: for each group those of its volumes in order, and then its area's.
    pub fn into_devices(self) -> Vec<D>
        ensures { result.items ≡ self.devices }
    {
        self.provider.into_devices()
    }
}

/// Whether sets are listed beside an answer.
fn lists_sets(told: Told) -> bool
    ensures { result ≡ lists_sets told }
{
    match told {
        Told::Images => true,
        _ => false,
    }
}
