//! Writers of the caller's own: each order is given once, and so is each abort.

ghost use Rattle.std.specs.Prelude.{◌≡◌, ◌≤◌, length, replicate, IfOk, IfSome, IsErrOf};
ghost use Rattle.coordinator.specs.OpenOrders.{standing_in};
ghost use Rattle.vss_world.specs.Moves.{IsEvent};
ghost use Rattle.vss_world.specs.Stands.{IsOf, IfStands};
ghost use Rattle.vss_play.specs.Asking.{AreTold, IsAnswered, IsGiven, IsTold, nothing};

use crate::given::Given;
use crate::play_fault::PlayFault;
use scenario::Scenario;
use std::alloc::Global;
use volume_device::Device;
use vss_model::Event;
use vss_world::World;
use writer_calls::{Answer, Standing, VssWriter};
use writer_state::WriterRow;

/// For each of so many writers, that it was given nothing.
pub fn none_given(alloc: Global, writers: u32) -> Result<Vec<Given>, PlayFault>
    ensures given { IfOk result (λ given. given.items ≡ replicate writers nothing) }
    ensures memory { IsErrOf result PlayFault.Failed → ⊥ }
{
    let nothing = Given {
        order: 0,
        aborts: 0,
    };
    match vec![in alloc; nothing; writers as usize] {
        Ok(given) => Ok(given),
        Err(_) => Err(PlayFault::OutOfMemory),
    }
}

/// Tells a writer of an abort, where its row has one that it was not told of.
fn tell_abort<W: VssWriter>(row: WriterRow, given: &mut Given, writer: &mut W)
    ensures { IsTold W.VssWriter row given.old given.new writer.old writer.new }
{
    if row.aborts > given.aborts {
        given.aborts = row.aborts;
        writer.on_abort();
    }
}

/// Tells the first so many writers of the aborts of their rows that they were not told of.
pub fn tell_aborts<W: VssWriter>(
    rows: &[WriterRow],
    count: usize,
    given: &mut [Given],
    writers: &mut [W],
)
    requires rows { count ≤ length rows.now }
    requires given { count ≤ length given.old }
    requires writers { count ≤ length writers.old }
    ensures { AreTold W.VssWriter rows.now count given.old given.new writers.old writers.new }
{
    for at in 0..count {
        tell_abort(rows[at], &mut given[at], &mut writers[at]);
    }
}

/// Gives a writer its open order, where it was not given that one, and takes its answer.
fn answer_of<W: VssWriter>(
    standing: Option<Standing>,
    given: &mut Given,
    writer: &mut W,
) -> Option<Answer>
    ensures { IsGiven W.VssWriter standing given.old given.new writer.old writer.new result }
{
    let standing = standing?;
    if standing.number <= given.order {
        return None;
    }
    given.order = standing.number;
    writer.on_order(standing.order, standing.nth)
}

/// The answer of the first of so many writers that has one.
pub fn first_answer<D: Device, W: VssWriter>(
    scenario: &Scenario,
    world: &World<D>,
    count: u32,
    given: &mut [Given],
    writers: &mut [W],
) -> Option<Event>
    requires of { IsOf world.now scenario.now }
    requires in_range { count ≤ length scenario.now.writers }
    requires given { count ≤ length given.old }
    requires writers { count ≤ length writers.old }
    ensures event { IfSome result (IsEvent scenario.now) }
    ensures answered { IfStands D.told world.now scenario.now (λ st. IsAnswered W.VssWriter
        (standing_in st.course) count given.old given.new writers.old writers.new result) }
{
    for writer in 0..count {
        let at = writer as usize;
        let standing = world.poll(scenario, writer);
        if let Some(answer) = answer_of(standing, &mut given[at], &mut writers[at]) {
            return Some(Event::Answer { writer, answer });
        }
    }
    None
}
