ghost use Rattle.std.specs.Prelude.{◌≡◌, ◌<◌, [], option_map, is_some, IfSome, Some, false};
ghost use Rattle.component_doc.specs.Selection.{Named};
ghost use Rattle.coordinator.specs.Coordinator.{IsOnTime, Stands, runs, works, writer_count};
ghost use Rattle.requestor.specs.Check.{check};
ghost use Rattle.coordinator.specs.OpenOrders.{standing_in};
ghost use Rattle.set_agenda.specs.Agenda.{is_asking};
ghost use Rattle.scenario.specs.Plan.{Plan};
ghost use Rattle.vss_model.specs.Acts.{may_call};
ghost use Rattle.vss_model.specs.Steps.{runs as agenda_runs};
ghost use Rattle.vss_model.specs.State.{State, is_frozen, is_held, is_kept_set, left_now, row_of, start};
ghost use Rattle.sessions.specs.Keeps.{IsInOrder, Keeps};
ghost use Rattle.sessions.specs.Moves.{IsNextStep, LetsGoAtRest, MayAdd};
ghost use Rattle.sessions.specs.Sets.{current_of, facts_of};

use crate::set_facts::SetFacts;
use crate::set_rows::SetRows;
use component_doc::Selection;
use coordinator::Coordinator;
use requestor::{Requestor, SessionCall, Verdict};
use set_agenda::Group;
use std::alloc::Global;
use std::marker::Model;
use tick_limits::Clock;
use writer_calls::Standing;
use writer_state::WriterRow;

/// The session, the sets, the writers and the clock.
#[derive(Drop)]
pub struct Sessions {
    pub(crate) requestor: Requestor,
    pub(crate) coordinator: Coordinator,
    pub(crate) sets: SetRows,
    pub(crate) clock: Clock,
    /// The components that the session has named.
    pub(crate) selection: Selection,
}

impl Model for Sessions {
    ghost use Rattle.sessions.specs.Keeps.{SessionsValue};

    ghost Value = { SessionsValue };

    ghost use Rattle.sessions.specs.Keeps.{value_of};

    ghost view = { value_of };
}

impl Sessions {
    /// No session has begun. The coordinator has all writers of a scenario, and has run no agenda.
    pub fn new(alloc: Global, coordinator: Coordinator) -> Sessions
        requires times { IsOnTime 0 coordinator }
        ensures keeps { (s : Plan) → Stands coordinator (start s).course → Keeps result (start s) }
        ensures coordinator { result.coordinator ≡ coordinator }
        ensures clock { result.clock ≡ 0 }
    {
        let writers = coordinator.writers();
        Sessions {
            requestor: Requestor::new(),
            coordinator,
            sets: SetRows::new(alloc),
            clock: Clock::new(),
            selection: nothing_named(alloc, writers),
        }
    }

    /// The clock, in ticks.
    pub fn now(&self) -> u64
        ensures { result ≡ self.now.clock }
    {
        self.clock.now()
    }

    /// The number of the set in progress.
    pub fn current(&self) -> Option<u32>
        ensures { result ≡ current_of self.now.sets }
    {
        self.sets.current()
    }

    /// The facts of a set; none if no set has this number.
    pub fn facts(&self, set: u32) -> Option<SetFacts>
        ensures { (st : State) → Keeps self.now st → result ≡ option_map facts_of (row_of st set) }
    {
        self.sets.facts(set)
    }

    /// Whether the set is complete, so that its images are kept.
    pub fn is_complete(&self, set: u32) -> bool
        ensures { (st : State) → Keeps self.now st → result ≡ is_kept_set st set }
    {
        self.sets.is_complete(set)
    }

    /// The writers' rows, in the order of their numbers.
    pub fn rows(&self) -> &[WriterRow]
        ensures { (st : State) → Keeps self.now st → result.now ≡ st.course.rows }
    {
        self.coordinator.rows()
    }

    /// How many writers there are.
    pub fn writers(&self) -> u32
        ensures { result ≡ writer_count self.now.coordinator }
    {
        self.coordinator.writers()
    }

    /// Whether the writer is frozen.
    pub fn is_frozen(&self, writer: u32) -> bool
        requires { writer < writer_count self.now.coordinator }
        ensures { (st : State) → Keeps self.now st → result ≡ is_frozen st writer }
    {
        self.coordinator.is_frozen(writer)
    }

    /// Whether the writes of the volume are held.
    pub fn is_held(&self, volume: u32) -> bool
        ensures { (st : State) → Keeps self.now st → result ≡ is_held st volume }
    {
        self.coordinator.is_held(volume)
    }

    /// The order that a writer has to answer; none if no order of it is open.
    pub fn poll(&self, writer: u32) -> Option<Standing>
        requires { writer < writer_count self.now.coordinator }
        ensures { (st : State) → Keeps self.now st → result ≡ standing_in st.course writer }
    {
        self.coordinator.poll(writer)
    }

    /// What the checks say of a session call by this lane. An `add` goes only where a set is in progress and no agenda
    /// runs.
    pub fn check(&self, lane: u32, call: SessionCall) -> Verdict
        ensures kept { (st : State) → Keeps self.now st → result ≡ check st.session (agenda_runs st) lane call }
        ensures adds { result ≡ Verdict.Go → call ≡ SessionCall.Add → (st : State) → IsInOrder st → Keeps self.now st → MayAdd st }
        ensures verdict { result ≡ check self.now.requestor.session (runs self.now.coordinator) lane call }
        ensures at_rest { result ≡ Verdict.Go → LetsGoAtRest self.now lane call }
    {
        let runs = self.coordinator.open_group().is_some();
        self.requestor.check(lane, call, runs)
    }

    /// Whether a session call by this lane does not wait.
    pub fn may_call(&self, lane: u32, call: SessionCall) -> bool
        ensures { (st : State) → Keeps self.now st → result ≡ may_call st lane (Some call) }
    {
        match self.check(lane, call) {
            Verdict::Blocked => false,
            Verdict::Go | Verdict::Refused(_) => true,
        }
    }

    /// Whether writers are asked, so that time may go by until a limit is spent.
    pub fn is_asking(&self) -> bool
        ensures { (st : State) → Keeps self.now st → result ≡ is_asking (left_now st) }
    {
        match self.coordinator.open_group() {
            None => false,
            Some(group) => group.order().is_some(),
        }
    }

    /// Whether the provider has a step to make.
    pub fn is_working(&self) -> bool
        ensures { result ≡ works self.now.coordinator }
    {
        self.coordinator.is_working()
    }

    /// The provider's next step and its volume; none if the provider has no step to make.
    pub fn next_step(&self) -> Option<(Group, Option<u32>)>
        ensures working { is_some result ≡ works self.now.coordinator }
        ensures step { IfSome result (λ step. IsNextStep self.now step.0 step.1) }
    {
        self.coordinator.next_step()
    }
}

/// A selection over this many writers in which nothing is named, which takes no memory.
pub(crate) fn nothing_named(alloc: Global, writers: u32) -> Selection
    ensures { result ≡ record { writers = writers; selected = Named [] } }
{
    match Selection::new(alloc, writers) {
        Ok(selection) => selection,
        Err(_) => unreachable!(),
    }
}
