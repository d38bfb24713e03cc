//! What a writer answers next, and whether time may pass idly.

ghost use Rattle.std.specs.Prelude.{◌≡◌, ◌<◌, length};
ghost use Rattle.std.specs.List.{list_all, range_with_len};
ghost use Rattle.vss_model.specs.Acts.{order_of_writer};
ghost use Rattle.vss_model.specs.Trail.{answer_event, line_event, script_event};
ghost use Rattle.vss_world.specs.Stands.{IsOf, IsStanding, IfStands};
ghost use Rattle.vss_play.specs.Running.{is_enabled_if, next_by, lane_rests, writer_rests, may_idle_in};

use crate::turn::next_line;
use scenario::Scenario;
use volume_device::Device;
use vss_model::Event;
use vss_world::World;
use writer_calls::Answer;

/// What a writer answers to the order that it has open; none where it has none open, or never answers it.
pub fn next_answer<D: Device>(scenario: &Scenario, world: &World<D>, writer: u32) -> Option<Answer>
    requires of { IsOf world.now scenario.now }
    requires in_range { writer < length scenario.now.writers }
    ensures { IfStands D.told world.now scenario.now (λ st. answer_event writer result ≡ script_event scenario.now st writer (order_of_writer st writer)) }
{
    let standing = world.poll(scenario, writer)?;
    scenario.script(writer, standing.order, standing.nth)
}

/// Whether a lane can act.
fn lane_can_act<D: Device>(
    scenario: &Scenario,
    world: &World<D>,
    cursors: &[u32],
    lane: u32,
) -> bool
    requires of { IsOf world.now scenario.now }
    requires standing { IsStanding D.told world.now scenario.now }
    requires many { length cursors.now ≡ length scenario.now.lanes }
    ensures { IfStands D.told world.now scenario.now (λ st. result ≡ is_enabled_if scenario.now st (line_event lane (next_by scenario.now cursors.now lane))) }
{
    let _facts = scenario.lanes();
    match next_line(scenario, cursors, lane) {
        None => false,
        Some(line) => world.is_enabled(scenario, Event::Line { lane, op: line.op }),
    }
}

/// Whether a writer can act.
fn writer_can_act<D: Device>(scenario: &Scenario, world: &World<D>, writer: u32) -> bool
    requires of { IsOf world.now scenario.now }
    requires standing { IsStanding D.told world.now scenario.now }
    requires in_range { writer < length scenario.now.writers }
    ensures { IfStands D.told world.now scenario.now (λ st. result ≡ is_enabled_if scenario.now st (script_event scenario.now st writer (order_of_writer st writer))) }
{
    match next_answer(scenario, world, writer) {
        None => false,
        Some(answer) => world.is_enabled(scenario, Event::Answer { writer, answer }),
    }
}

/// Whether no lane can act.
fn lanes_rest<D: Device>(scenario: &Scenario, world: &World<D>, cursors: &[u32]) -> bool
    requires of { IsOf world.now scenario.now }
    requires standing { IsStanding D.told world.now scenario.now }
    requires many { length cursors.now ≡ length scenario.now.lanes }
    ensures { IfStands D.told world.now scenario.now (λ st. result ≡ list_all (lane_rests scenario.now cursors.now st) (range_with_len 0 (length scenario.now.lanes))) }
{
    for lane in 0..scenario.lanes() {
        if lane_can_act(scenario, world, cursors, lane) {
            return false;
        }
    }
    true
}

/// Whether no writer can act.
fn writers_rest<D: Device>(scenario: &Scenario, world: &World<D>) -> bool
    requires of { IsOf world.now scenario.now }
    requires standing { IsStanding D.told world.now scenario.now }
    ensures { IfStands D.told world.now scenario.now (λ st. result ≡ list_all (writer_rests scenario.now st) (range_with_len 0 (length scenario.now.writers))) }
{
    for writer in 0..scenario.writers() {
        if writer_can_act(scenario, world, writer) {
            return false;
        }
    }
    true
}

/// Whether time may pass idly: a writer is asked, and nobody else can act. The lanes and the writers are looked at only where one is
/// asked.
pub fn may_idle<D: Device>(scenario: &Scenario, world: &World<D>, cursors: &[u32]) -> bool
    requires of { IsOf world.now scenario.now }
    requires standing { IsStanding D.told world.now scenario.now }
    requires many { length cursors.now ≡ length scenario.now.lanes }
    ensures { IfStands D.told world.now scenario.now (λ st. result ≡ may_idle_in scenario.now cursors.now st) }
{
    if !world.is_enabled(scenario, Event::Idle) {
        return false;
    }
    if !lanes_rest(scenario, world, cursors) {
        return false;
    }
    if !writers_rest(scenario, world) {
        return false;
    }
    !world.is_enabled(scenario, Event::Provider)
}
