//! The answer to an event, and those that end no set and lose no writer.

ghost use Rattle.std.specs.Prelude.{◌≡◌};
ghost use Rattle.vss_names.specs.declared.vss_result.VssResult.TheVariants.{ObjectNotFound};
ghost use Rattle.vss_model.specs.declared.told.Told.TheVariants as told;
ghost use Rattle.vss_world.specs.declared.reply.Reply.TheVariants.{Moved};
ghost use Rattle.vss_world.specs.Moves.{simple_outcome};

use vss_model::{Outcome, Told};
use vss_names::{SetOutcome, VssResult};

/// The answer to an event.
#[derive(Clone, Copy)]
pub enum Reply {
    /// The event is not enabled; nothing has changed.
    Blocked,
    Moved(Outcome),
}

/// The answer of a move that ends no set and loses no writer.
pub(crate) fn told(told: Told) -> Reply
    ensures { result ≡ Moved (simple_outcome told) }
{
    Reply::Moved(Outcome {
        told,
        lost: 0,
        lost_order: None,
        set: 0,
        result: SetOutcome::Running,
    })
}

/// The answer with a code.
pub(crate) fn coded(why: VssResult) -> Reply
    ensures { result ≡ Moved (simple_outcome (told.Result why)) }
{
    told(Told::Result(why))
}
