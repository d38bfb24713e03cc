ghost use Rattle.std.specs.Prelude.{◌≡◌, []};
ghost use Rattle.turn_cell.specs.declared.view.View.TheVariants.{Idle};
ghost use Rattle.turn_cell.specs.Steps.{known};

use crate::law::Place;
use crate::machine::Machine;

/// The right to call the machine of one turn, under a number of its own. It cannot be copied, and may go to another
/// thread.
pub struct Caller<M: Machine> {
    pub(crate) number: u32,
    pub(crate) seat: Place<M>,
    ghost idle: { seat.me ≡ (Idle (known seat.me.0), []) },
    ghost named: { (known seat.me.0).number ≡ number },
}

impl<M: Machine> Caller<M> {
    pub(crate) fn into_seat(self) -> Place<M>
        ensures { result ≡ self.seat }
    {
        let Self { number: _, seat } = self;
        seat
    }
}

impl<M: Machine> Drop for Caller<M> {
    fn drop(self) {
        let Self { number: _, seat: _ } = self;
    }
}
