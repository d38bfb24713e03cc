//! The core of the service, move by move.

ghost use Rattle.vss_world.specs.Moves.{IsEvent};

use crate::in_threads::trial_error::TrialError;
use scenario::Scenario;
use volume_device::{Device, MemMaker, Store};
use vss_model::Event;
use vss_play::Service;
use vss_world::Reply;

/// Makes a move, and writes whether it was made or has to wait.
fn show_step<D: Device>(
    rt: &HostRuntime,
    service: &mut Service<D>,
    name: &str,
    event: Event,
) -> Result<(), TrialError>
    requires { IsEvent service.old.plan event }
{
    let has_moved = matches!(service.step(rt.alloc(), event)?, Reply::Moved(_));
    println!(rt; "{name} moved {has_moved}")?;
    Ok(())
}

/// Makes the first move of the first lane, behind which the provider and time have to wait.
fn show_first_steps<D: Device>(
    rt: &HostRuntime,
    service: &mut Service<D>,
) -> Result<(), TrialError> {
    let Some((line, _)) = service.line(0, 0) else {
        return Err(TrialError::Scenario);
    };
    show_step(rt, service, "line", line)?;
    show_step(rt, service, "provider", Event::Provider)?;
    show_step(rt, service, "time", Event::Idle)
}

/// All of these, over devices in memory.
pub fn show_steps(rt: &HostRuntime, scenario: Scenario) -> Result<(), TrialError> {
    let mut maker = MemMaker::new(rt.alloc(), Vec::new(rt.alloc()));
    let mut service = Service::new(rt.alloc(), scenario, &Store::Memory, &mut maker)?;
    show_first_steps(rt, &mut service)
}
