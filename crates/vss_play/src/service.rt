ghost use Rattle.std.specs.Prelude.{true, ◌≡◌, ◌<◌, ◌≤◌, ◌+◌, ◌⊎◌, ◌↔◌, [], Some, length, min, replicate, slice_get, OnOk, OnErr, IfOk, IfSome, IsErrOf, is_some};
ghost use Rattle.vss_names.specs.Faults.{Rose};
ghost use Rattle.coordinator.specs.OpenOrders.{standing_in};
ghost use Rattle.sessions.specs.Moves.{IsNextStep};
ghost use Rattle.vss_model.specs.Acts.{enabled};
ghost use Rattle.vss_model.specs.declared.event.Event.TheVariants.{Provider as ProviderEvent};
ghost use Rattle.write_history.specs.declared.mark.Mark.TheVariants as mark;
ghost use Rattle.vss_world.specs.Moves.{AreListed, IsEvent, IsStepped, IsToldStep, StepLasts, takes_memory};
ghost use Rattle.vss_world.specs.Stands.{IsOf, Stands, IsStanding, IfStands};
ghost use Rattle.vss_world.specs.declared.reply.Reply.TheVariants.{Moved};
ghost use Rattle.vss_report.specs.ToldLines.{most_bytes};
ghost use Rattle.vss_play.specs.Asking.{AreAsked, nothing};
ghost use Rattle.vss_play.specs.Played.{AreNamed, IsDropped, IsUndone, device_names};
ghost use Rattle.vss_play.specs.Running.{AreInPlan, bytes_for};
ghost use Rattle.vss_play.specs.Serving.{AreToldOf, actor_by, line_at, moves_in};

use crate::asking::{first_answer, none_given, tell_aborts};
use crate::given::Given;
use crate::new_groups::open_new;
use crate::play_fault::PlayFault;
use crate::step_fault::StepFault;
use crate::turn::{bytes_for, mark_of, write_lines};
use scenario::Scenario;
use set_agenda::Group;
use std::alloc::Global;
use std::marker::Model;
use volume_device::{Device, Maker, Store};
use vss_model::{Event, Outcome};
use vss_names::{OutOfMemory, Text};
use vss_world::{Reply, World};
use write_history::{Actor, Mark, Move};
use writer_calls::{Standing, VssWriter};
use writer_state::WriterRow;

/// The most moves of a service.
pub const MOST_MOVES: u32 = 2_097_151;

/// Who makes an event.
fn actor_of(event: Event) -> Actor
    ensures { result ≡ actor_by event }
{
    match event {
        Event::Line { lane, .. } => Actor::Lane(lane),
        Event::Answer { writer, .. } => Actor::Writer(writer),
        Event::Provider => Actor::Advance,
        Event::Idle => Actor::Idle,
    }
}

/// The core with its scenario, for callers who make the events and whose writers are their own. It writes no report.
/// Contracts see the scenario, the core, how many moves it made, and what each writer was given.
#[derive(Drop)]
pub struct Service<D: Device> {
    scenario: Scenario,
    world: World<D>,
    moves: u32,
    /// What each writer of the caller's was given by `ask`.
    given: Vec<Given>,
}

impl<D: Device> Model for Service<D> {
    ghost use Rattle.vss_play.specs.Serving.{ServiceValue, IsServing};

    ghost Value = { ServiceValue D };

    ghost view = { λ s. record {
      plan = s.scenario;
      world = s.world;
      moves = s.moves;
      given = s.given.items;
    } };

    ghost invariant = { λ s. IsServing D.told s.scenario s.world s.moves s.given.items };
}

impl<D: Device> Service<D> {
    /// A service of which nothing has happened yet, over devices that the maker makes, as for a run: those of the
    /// volumes, and then those of the areas. If one is refused, the maker gets back the others. If memory is refused once all are made,
    /// they are dropped.
    pub fn new<M: Maker<Made = D>>(
        alloc: Global,
        scenario: Scenario,
        store: &Store,
        maker: &mut M,
    ) -> Result<Service<D>, PlayFault>
        ensures plan { IfOk result (λ service. service.plan ≡ scenario) }
        ensures stands { IfOk result (λ service. Stands D.told service.world scenario []) }
        ensures unmoved { IfOk result (λ service. service.moves ≡ 0) }
        ensures given { IfOk result (λ service.
            service.given ≡ replicate (length scenario.writers) nothing) }
        ensures tells { M.tells maker.new ≡ M.tells maker.old }
        ensures named { OnOk result (AreNamed (device_names scenario)
            (M.named maker.old) (M.named maker.new)) }
        ensures kept { OnOk result (M.kept maker.new ≡ M.kept maker.old) }
        ensures undone { IsErrOf result PlayFault.Failed → IsUndone D.count scenario
            (M.named maker.old) (M.named maker.new) (M.kept maker.old) (M.kept maker.new) }
        ensures wanting { IsErrOf result PlayFault.OutOfMemory → IsUndone D.count scenario
            (M.named maker.old) (M.named maker.new) (M.kept maker.old) (M.kept maker.new)
            ⊎ IsDropped scenario
            (M.named maker.old) (M.named maker.new) (M.kept maker.old) (M.kept maker.new) }
        ensures places { IfOk result (λ service.
            length service.world.devices ≤ M.places maker.new) }
        ensures later { M.count maker.old ≤ M.count maker.new }
        ensures unfailed { OnOk result (M.count maker.new ≡ M.count maker.old) }
        ensures unmade { IsErrOf result PlayFault.OutOfMemory → M.count maker.new ≡ M.count maker.old }
        ensures rose { IsErrOf result PlayFault.Failed → Rose (M.count maker.old) (M.count maker.new) }
    {
        let _facts = scenario.lanes();
        let given = none_given(alloc, scenario.writers())?;
        let groups = open_new(alloc, &scenario, store, maker)?;
        match World::new(alloc, &scenario, groups) {
            Ok(world) => Ok(Service {
                scenario,
                world,
                moves: 0,
                given,
            }),
            Err(_) => Err(PlayFault::OutOfMemory),
        }
    }

    /// The scenario.
    pub fn scenario(&self) -> &Scenario
        ensures { result.now ≡ self.now.plan }
    {
        &self.scenario
    }

    /// The core, for all that can be asked of it.
    pub fn world(&self) -> &World<D>
        ensures world { result.now ≡ self.now.world }
        ensures of { IsOf self.now.world self.now.plan }
        ensures standing { IsStanding D.told self.now.world self.now.plan }
    {
        &self.world
    }

    /// Whether an event may come now.
    pub fn may(&self, event: Event) -> bool
        requires { IsEvent self.now.plan event }
        ensures { IfStands D.told self.now.world self.now.plan (λ st. result ≡ enabled self.now.plan st event) }
    {
        self.world.is_enabled(&self.scenario, event)
    }

    /// The order that a writer has to answer; none where no order of it is open.
    pub fn poll(&self, writer: u32) -> Option<Standing>
        requires { writer < length self.now.plan.writers }
        ensures { IfStands D.told self.now.world self.now.plan (λ st. result ≡ standing_in st.course writer) }
    {
        self.world.poll(&self.scenario, writer)
    }

    /// The writers' rows, in the order of their numbers.
    pub fn rows(&self) -> &[WriterRow]
        ensures many { length result.now ≡ length self.now.plan.writers }
        ensures rows { IfStands D.told self.now.world self.now.plan (λ st. result.now ≡ st.course.rows) }
    {
        self.world.rows(&self.scenario)
    }

    /// Asks writers of the caller's own, of one type (`Box<dyn VssWriter>` is one) and in the order of their numbers. Tells each of the aborts
    /// that it was not told of, and gives the first of them its open order, and then the next, until one answers. A writer is given an order
    /// once; none where no writer answers.
    pub fn ask<W: VssWriter>(&mut self, writers: &mut [W]) -> Option<Event>
        ensures same { self.new ≡ record self.old { given = self.new.given } }
        ensures many { length self.new.given ≡ length self.old.plan.writers }
        ensures event { IfSome result (IsEvent self.old.plan) }
        ensures asked { IfStands D.told self.old.world self.old.plan (λ st.
            AreAsked W.VssWriter st.course
            (min (length self.old.plan.writers) (length writers.old))
            self.old.given self.new.given writers.old writers.new result) }
    {
        let count = (self.scenario.writers() as usize).min(writers.len());
        let rows = self.world.rows(&self.scenario);
        tell_aborts(rows, count, &mut self.given, writers);
        first_answer(
            &self.scenario,
            &self.world,
            count as u32,
            &mut self.given,
            writers,
        )
    }

    /// The event of a line of a lane, counted from 0, with the line's number in the text; none where the lane has no such line.
    #[tactic(auto, using(crate::proofs::Serving::line_in))]
    pub fn line(&self, lane: u32, at: u32) -> Option<(Event, u32)>
        ensures line { result ≡ line_at self.now.plan lane at }
        ensures event { IfSome result (λ next. IsEvent self.now.plan next.0) }
    {
        let _facts = self.scenario.lanes();
        let line = self.scenario.line(lane, at)?;
        Some((Event::Line { lane, op: line.op }, line.number))
    }

    /// Makes an event, if it is enabled, and says what it came to; else it is blocked. A service that has made all its
    /// moves makes no more.
    pub fn step(&mut self, alloc: Global, event: Event) -> Result<Reply, StepFault>
        requires { IsEvent self.old.plan event }
        ensures same { OnErr result (self.new ≡ self.old) }
        ensures plan { self.new.plan ≡ self.old.plan }
        ensures given { self.new.given ≡ self.old.given }
        ensures moves { IfOk result (λ reply. self.new.moves ≡ self.old.moves + moves_in reply) }
        ensures full { IsErrOf result StepFault.TrailFull ↔ (self.old.moves ≡ 2097151) }
        ensures takes { IsErrOf result StepFault.OutOfMemory → takes_memory event ≡ true }
        ensures stepped { IfOk result (IsStepped D.Device self.old.world self.new.world self.old.plan event) }
        ensures lasts { event ≡ ProviderEvent →
            IfOk result (StepLasts D.Device self.new.world self.old.plan) }
        ensures listed { IfOk result (λ reply. AreListed reply self.new.world.listed) }
    {
        if self.moves >= MOST_MOVES {
            return Err(StepFault::TrailFull);
        }
        match self.world.step(alloc, &self.scenario, event) {
            Err(OutOfMemory) => Err(StepFault::OutOfMemory),
            Ok(Reply::Blocked) => Ok(Reply::Blocked),
            Ok(Reply::Moved(outcome)) => {
                self.moves += 1;
                Ok(Reply::Moved(outcome))
            }
        }
    }

    /// Makes an event, as `step` does, and appends the lines that the report of a run has for such a move. `line` is the number of the
    /// lane's line in the text, and is not used for another event. Where it makes no move, it appends nothing.
    #[tactic(auto, using(crate::proofs::Serving::no_room))]
    pub fn step_into(
        &mut self,
        alloc: Global,
        event: Event,
        line: u32,
        out: &mut Text,
    ) -> Result<Reply, StepFault>
        requires { IsEvent self.old.plan event }
        ensures same { OnErr result (self.new ≡ self.old) }
        ensures untold { OnErr result (out.new.bytes ≡ out.old.bytes) }
        ensures plan { self.new.plan ≡ self.old.plan }
        ensures given { self.new.given ≡ self.old.given }
        ensures moves { IfOk result (λ reply. self.new.moves ≡ self.old.moves + moves_in reply) }
        ensures full { IsErrOf result StepFault.TrailFull → self.old.moves ≡ 2097151 }
        ensures takes { IsErrOf result StepFault.OutOfMemory →
            (takes_memory event ≡ true) ⊎ (out.old.spare < bytes_for self.old.plan event) }
        ensures stepped { IfOk result (IsStepped D.Device self.old.world self.new.world self.old.plan event) }
        ensures lasts { event ≡ ProviderEvent →
            IfOk result (StepLasts D.Device self.new.world self.old.plan) }
        ensures listed { IfOk result (λ reply. AreListed reply self.new.world.listed) }
        ensures lines { IfOk result (λ reply. AreToldOf D.told self.new.plan self.new.world self.new.moves line event reply out.old.bytes out.new.bytes) }
    {
        let _kept = self.world();
        if out.reserve(bytes_for(&self.scenario, event)).is_err() {
            return Err(StepFault::OutOfMemory);
        }
        let Reply::Moved(outcome) = self.step(alloc, event)? else {
            return Ok(Reply::Blocked);
        };
        self.add_lines(event, line, &outcome, out);
        Ok(Reply::Moved(outcome))
    }

    /// The provider's next step and its volume; none if it has no step to make.
    pub fn next_step(&self) -> Option<(Group, Option<u32>)>
        ensures working { IfStands D.told self.now.world self.now.plan
            (λ st. is_some result ≡ enabled self.now.plan st ProviderEvent) }
        ensures step { IfSome result (λ step. IsNextStep self.now.world.sessions step.0 step.1) }
    {
        self.world.next_step()
    }

    /// Makes the provider's step as one in which its device failed, where it may fail.
    fn fail(&mut self, alloc: Global) -> Result<Reply, StepFault>
        ensures same { OnErr result (self.new ≡ self.old) }
        ensures plan { self.new.plan ≡ self.old.plan }
        ensures given { self.new.given ≡ self.old.given }
        ensures moves { IfOk result (λ reply. self.new.moves ≡ self.old.moves + moves_in reply) }
        ensures full { IsErrOf result StepFault.TrailFull → self.old.moves ≡ 2097151 }
        ensures takes { IsErrOf result StepFault.OutOfMemory → ⊥ }
        ensures stepped { IfOk result
            (IsToldStep D.Device self.old.world self.new.world self.old.plan
            ProviderEvent mark.Fault) }
        ensures listed { IfOk result (λ reply. AreListed reply self.new.world.listed) }
    {
        if self.moves >= MOST_MOVES {
            return Err(StepFault::TrailFull);
        }
        match self
            .world
            .step_marked(alloc, &self.scenario, Event::Provider, Mark::Fault)
        {
            Err(OutOfMemory) => Err(StepFault::OutOfMemory),
            Ok(Reply::Blocked) => Ok(Reply::Blocked),
            Ok(Reply::Moved(outcome)) => {
                self.moves += 1;
                Ok(Reply::Moved(outcome))
            }
        }
    }

    /// Makes the provider's step as one in which its device failed, though no such call is made, and appends its lines as `step_into` does. A step
    /// that cannot fail is made as it is.
    #[tactic(auto, using(crate::proofs::Serving::no_room))]
    pub fn fail_into(&mut self, alloc: Global, out: &mut Text) -> Result<Reply, StepFault>
        ensures same { OnErr result (self.new ≡ self.old) }
        ensures untold { OnErr result (out.new.bytes ≡ out.old.bytes) }
        ensures plan { self.new.plan ≡ self.old.plan }
        ensures given { self.new.given ≡ self.old.given }
        ensures moves { IfOk result (λ reply. self.new.moves ≡ self.old.moves + moves_in reply) }
        ensures full { IsErrOf result StepFault.TrailFull → self.old.moves ≡ 2097151 }
        ensures takes { IsErrOf result StepFault.OutOfMemory → out.old.spare < most_bytes 0 }
        ensures stepped { IfOk result
            (IsToldStep D.Device self.old.world self.new.world self.old.plan
            ProviderEvent mark.Fault) }
        ensures listed { IfOk result (λ reply. AreListed reply self.new.world.listed) }
        ensures lines { IfOk result (λ reply.
            AreToldOf D.told self.new.plan self.new.world self.new.moves 0 ProviderEvent reply
            out.old.bytes out.new.bytes) }
    {
        let _kept = self.world();
        let event = Event::Provider;
        if out.reserve(bytes_for(&self.scenario, event)).is_err() {
            return Err(StepFault::OutOfMemory);
        }
        let Reply::Moved(outcome) = self.fail(alloc)? else {
            return Ok(Reply::Blocked);
        };
        self.add_lines(event, 0, &outcome, out);
        Ok(Reply::Moved(outcome))
    }

    /// Appends the lines of the last move, for which there is room.
    fn add_lines(&self, event: Event, line: u32, outcome: &Outcome, out: &mut Text)
        requires numbers { AreInPlan self.now.plan (actor_by event) outcome.now self.now.world.evicted }
        requires room { most_bytes (length self.now.world.evicted) ≤ out.old.spare }
        ensures { AreToldOf D.told self.now.plan self.now.world self.now.moves line event (Moved outcome.now) out.old.bytes out.new.bytes }
    {
        let item = Move {
            actor: actor_of(event),
            mark: mark_of(outcome.told),
        };
        write_lines(
            &self.scenario,
            &self.world,
            self.moves,
            line,
            item,
            outcome,
            out,
        );
    }

    /// The scenario and the core, as they are: from the core come the groups with their areas and devices, which can be synced and
    /// taken up again.
    pub fn into_parts(self) -> (Scenario, World<D>)
        ensures scenario { result.0 ≡ self.plan }
        ensures world { result.1 ≡ self.world }
        ensures of { IsOf self.world self.plan }
        ensures standing { IsStanding D.told self.world self.plan }
    {
        (self.scenario, self.world)
    }
}
