//! What follows from a move of the sessions for the provider.

ghost use Rattle.std.specs.Prelude.{◌≡◌};
ghost use Rattle.vss_world.specs.Changes.{IsEnded, IsReleased, IsSettled};

use provider::Provider;
use sessions::SessionMove;
use volume_device::Device;
use vss_model::Outcome;
use vss_names::SetOutcome;

/// Where the set that is prepared is over, the provider is told: it takes back the images of one that failed, and keeps those of one that
/// is complete. The images of a set that is released with its session go.
pub(crate) fn settle<D: Device>(provider: &mut Provider<D>, item: SessionMove)
    ensures { IsSettled D.Device item provider.old provider.new }
{
    end(provider, item.outcome);
    release(provider, item.released);
}

/// The set of a move is over, where one is.
fn end<D: Device>(provider: &mut Provider<D>, outcome: Outcome)
    ensures { IsEnded D.Device outcome.set outcome.result provider.old provider.new }
{
    if outcome.set == 0 {
        return;
    }
    match outcome.result {
        SetOutcome::Failed(_) => {
            let _ = provider.abort();
        }
        SetOutcome::Complete => provider.finish(),
        SetOutcome::Running => {}
    }
}

/// All images of a set go, where there is one.
fn release<D: Device>(provider: &mut Provider<D>, set: Option<u32>)
    ensures { IsReleased D.Device set provider.old provider.new }
{
    match set {
        None => {}
        Some(set) => {
            let _ = provider.drop_set(set);
        }
    }
}
