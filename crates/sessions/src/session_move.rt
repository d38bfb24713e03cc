ghost use Rattle.std.specs.Prelude.{◌≡◌};
ghost use Rattle.sessions.specs.Concluded.{told_alone, told_of};

use crate::ended::Ended;
use crate::endings::nothing_ends;
use vss_model::{Outcome, Told};
use vss_names::Order;

/// What a move of a session, of a writer, of the provider or of time comes to. The images of a set that fails in it go.
#[derive(Clone, Copy)]
pub struct SessionMove {
    pub outcome: Outcome,
    /// The set whose images go since its session ends.
    pub released: Option<u32>,
}

impl SessionMove {
    /// A move in which nothing ends and no writer is lost.
    pub(crate) fn alone(told: Told) -> SessionMove
        ensures { result ≡ told_alone told }
    {
        SessionMove::of(told, 0, None, nothing_ends())
    }

    /// A move in which these writers, as bits, are lost at this order, and this ends.
    pub(crate) fn of(told: Told, lost: u64, lost_order: Option<Order>, ended: Ended) -> SessionMove
        ensures { result ≡ told_of told lost lost_order ended }
    {
        SessionMove {
            outcome: Outcome {
                told,
                lost,
                lost_order,
                set: ended.set,
                result: ended.result,
            },
            released: None,
        }
    }
}
