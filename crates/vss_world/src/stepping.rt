//! A step of the provider.

ghost use Rattle.vss_model.specs.declared.event.Event.TheVariants.{Provider as ProviderEvent};
ghost use Rattle.vss_world.specs.Stands.{IsOf, IsStanding};
ghost use Rattle.vss_world.specs.Moves.{IsStepped, StepLasts};

use crate::reply::Reply;
use crate::settling::settle;
use crate::world::World;
use scenario::Scenario;
use volume_device::Device;

impl<D: Device> World<D> {
    /// Makes the provider's next step. Where a device fails to flush, the set fails, and its images go.
    pub(crate) fn make_step(&mut self, scenario: &Scenario) -> Reply
        requires of { IsOf self.old scenario.now }
        requires standing { IsStanding D.told self.old scenario.now }
        ensures stepped { IsStepped D.Device self.old self.new scenario.now ProviderEvent result }
        ensures lasts { StepLasts D.Device self.new scenario.now result }
    {
        let Some(next) = self.sessions.next_step() else {
            return Reply::Blocked;
        };
        let made = self.provider.step(scenario, next.0, next.1);
        let ok = made.is_ok();
        let item = self.sessions.step(next.0, next.1, ok);
        settle(&mut self.provider, item);
        self.evicted.clear();
        Reply::Moved(item.outcome)
    }
}
