//! What happens beside the lines of sessions: time goes by, and writers answer.

ghost use Rattle.std.specs.Prelude.{◌<◌, ◌≤◌, length};
ghost use Rattle.scenario.specs.declared.op.Op.TheVariants.{Tick};
ghost use Rattle.vss_model.specs.declared.event.Event.TheVariants.{Line, Answer as AnswerEvent, Idle};
ghost use Rattle.vss_world.specs.Stands.{IsOf, IsStanding};
ghost use Rattle.vss_world.specs.Moves.{IsStepped};

use crate::reply::Reply;
use crate::settling::settle;
use crate::world::World;
use scenario::Scenario;
use sessions::Called;
use volume_device::Device;
use writer_calls::Answer;

impl<D: Device> World<D> {
    /// So many ticks go by.
    pub(crate) fn tick(&mut self, scenario: &Scenario, lane: u32, ticks: u32) -> Reply
        requires of { IsOf self.old scenario.now }
        requires standing { IsStanding D.told self.old scenario.now }
        requires in_range { ticks ≤ 1000000000 }
        ensures { IsStepped D.Device self.old self.new scenario.now (Line lane (Tick ticks)) result }
    {
        let item = self.sessions.time(ticks);
        settle(&mut self.provider, item);
        self.evicted.clear();
        Reply::Moved(item.outcome)
    }

    /// A writer answers.
    pub(crate) fn answer(&mut self, scenario: &Scenario, writer: u32, answer: Answer) -> Reply
        requires of { IsOf self.old scenario.now }
        requires standing { IsStanding D.told self.old scenario.now }
        requires in_range { writer < length scenario.now.writers }
        ensures { IsStepped D.Device self.old self.new scenario.now (AnswerEvent writer answer) result }
    {
        match self.sessions.answer(writer, answer) {
            Called::Waits => Reply::Blocked,
            Called::Moves(item) => {
                settle(&mut self.provider, item);
                self.evicted.clear();
                Reply::Moved(item.outcome)
            }
        }
    }

    /// Time goes by while writers are waited for, until a limit is spent.
    pub(crate) fn idle(&mut self, scenario: &Scenario) -> Reply
        requires of { IsOf self.old scenario.now }
        requires standing { IsStanding D.told self.old scenario.now }
        ensures { IsStepped D.Device self.old self.new scenario.now Idle result }
    {
        match self.sessions.idle() {
            Called::Waits => Reply::Blocked,
            Called::Moves(item) => {
                settle(&mut self.provider, item);
                self.evicted.clear();
                Reply::Moved(item.outcome)
            }
        }
    }
}
