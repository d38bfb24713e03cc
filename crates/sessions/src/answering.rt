ghost use Rattle.std.specs.Prelude.{◌≡◌, ◌<◌, ◌&&◌, Some, length, not, false, true};
ghost use Rattle.coordinator.specs.Coordinator.{MayPost, works, writer_count};
ghost use Rattle.scenario.specs.Plan.{Plan};
ghost use Rattle.vss_model.specs.Cut.{is_cut_group};
ghost use Rattle.vss_model.specs.Steps.{is_flush};
ghost use Rattle.vss_model.specs.declared.event.Event.TheVariants.{Answer as AnswerEvent, Provider};
ghost use Rattle.sessions.specs.Keeps.{IsAt, IsStanding, Leaves};
ghost use Rattle.sessions.specs.Moves.{HasCut, HasStepped, IsCall, IsMove, IsNextStep};

use crate::called::Called;
use crate::session_move::SessionMove;
use crate::sessions::Sessions;
use set_agenda::Group;
use vss_model::Told;
use writer_calls::Answer;

impl Sessions {
    /// A writer answers its open order. The event waits if it has none.
    pub fn answer(&mut self, writer: u32, answer: Answer) -> Called
        requires standing { IsStanding self.old }
        requires known { writer < writer_count self.old.coordinator }
        ensures called { (s : Plan) → IsCall (IsAt self.old s) s self.old self.new (AnswerEvent writer answer) result }
        ensures leaves { Leaves self.old self.new }
    {
        let Some(standing) = self.coordinator.poll(writer) else {
            return Called::Waits;
        };
        let now = self.clock.now();
        match self
            .coordinator
            .answered(writer, standing.number, answer, now)
        {
            Err(_) => Called::Waits,
            Ok(effects) => {
                let told = Told::Answered {
                    order: standing.order,
                    answer,
                };
                Called::Moves(self.conclude(told, effects))
            }
        }
    }

    /// The provider makes its next step, which is this one. It is not `ok` if a device failed in it, which counts in a
    /// flush alone and fails the set.
    pub fn step(&mut self, group: Group, volume: Option<u32>, ok: bool) -> SessionMove
        requires standing { IsStanding self.old }
        requires next { IsNextStep self.old group volume }
        ensures moves { (s : Plan) → IsMove (IsAt self.old s) s self.new Provider result }
        ensures told { result.outcome.told ≡ Told.Step group volume (not ok && is_flush (Some group)) }
        ensures leaves { Leaves self.old self.new }
    {
        if fails_at(group, ok) {
            self.step_fails(group, volume)
        } else {
            self.step_made(group, volume)
        }
    }

    /// A device fails the step, and with it the set.
    fn step_fails(&mut self, group: Group, volume: Option<u32>) -> SessionMove
        requires room { MayPost self.old.coordinator }
        requires works { works self.old.coordinator ≡ true }
        ensures stepped { HasStepped true group volume self.old self.new result }
        ensures told { result.outcome.told ≡ Told.Step group volume true }
        ensures leaves { Leaves self.old self.new }
    {
        let now = self.clock.now();
        let effects = self.coordinator.stepped(false, now);
        let told = Told::Step {
            group,
            volume,
            fault: true,
        };
        self.conclude(told, effects)
    }

    /// The step is made. At the Cut step the set in progress gets the time of its cut.
    fn step_made(&mut self, group: Group, volume: Option<u32>) -> SessionMove
        requires room { MayPost self.old.coordinator }
        requires works { works self.old.coordinator ≡ true }
        ensures stepped { HasStepped false group volume self.old self.new result }
        ensures told { result.outcome.told ≡ Told.Step group volume false }
        ensures leaves { Leaves self.old self.new }
    {
        let now = self.clock.now();
        self.cut_at(group, now);
        let effects = self.coordinator.stepped(true, now);
        let told = Told::Step {
            group,
            volume,
            fault: false,
        };
        self.conclude(told, effects)
    }

    /// At the Cut step the set in progress gets the time of its cut.
    fn cut_at(&mut self, group: Group, now: u64)
        requires { now ≡ self.old.clock }
        ensures cut { HasCut group self.old self.new }
        ensures coordinator { self.new.coordinator ≡ self.old.coordinator }
        ensures sets { length self.new.sets ≡ length self.old.sets }
        ensures clock { self.new.clock ≡ self.old.clock }
    {
        if !is_cut(group) {
            return;
        }
        self.sets.cut(now);
    }
}

/// Whether a step of this group fails: a flush in which a device failed.
fn fails_at(group: Group, ok: bool) -> bool
    ensures { result ≡ (not ok && is_flush (Some group)) }
{
    match group {
        Group::Flush => !ok,
        Group::Orders(_)
        | Group::PreCommit
        | Group::Hold
        | Group::Cut
        | Group::Commit
        | Group::Release
        | Group::PostCommit => false,
    }
}

fn is_cut(group: Group) -> bool
    ensures { result ≡ is_cut_group (Some group) }
{
    match group {
        Group::Cut => true,
        Group::Orders(_)
        | Group::PreCommit
        | Group::Flush
        | Group::Hold
        | Group::Commit
        | Group::Release
        | Group::PostCommit => false,
    }
}
