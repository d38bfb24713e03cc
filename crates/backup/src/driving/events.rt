//! The events that a backup makes itself.

ghost use Rattle.std.specs.Prelude.{◌≤◌, IfSome};
ghost use Rattle.vss_world.specs.Moves.{IsEvent};

use crate::driving::setting::{BACKUP, CLOCK};
use scenario::Op;
use volume_device::MemDevice;
use vss_model::Event;
use vss_play::{Service, StepFault};
use writer_calls::Answer;

/// What a call comes to whose memory was refused.
pub fn memory<T: Drop, E: Drop>(done: Result<T, E>) -> Result<T, StepFault> {
    match done {
        Ok(value) => Ok(value),
        Err(_) => Err(StepFault::OutOfMemory),
    }
}

/// The call `abort`, of the lane `backup`.
pub fn abort_of(service: &Service<MemDevice>) -> Option<Event>
    ensures { IfSome result (IsEvent service.now.plan) }
{
    if service.scenario().lanes() <= BACKUP {
        return None;
    }
    Some(Event::Line {
        lane: BACKUP,
        op: Op::Abort,
    })
}

/// The line by which time goes by, of the lane `clock`.
pub fn tick_of(service: &Service<MemDevice>, ticks: u32) -> Option<Event>
    requires { ticks ≤ 1000000000 }
    ensures { IfSome result (IsEvent service.now.plan) }
{
    if service.scenario().lanes() <= CLOCK {
        return None;
    }
    Some(Event::Line {
        lane: CLOCK,
        op: Op::Tick { ticks },
    })
}

/// The answer of a writer.
pub fn answer_of(service: &Service<MemDevice>, writer: u32, answer: Answer) -> Option<Event>
    ensures { IfSome result (IsEvent service.now.plan) }
{
    if service.scenario().writers() <= writer {
        return None;
    }
    Some(Event::Answer { writer, answer })
}
