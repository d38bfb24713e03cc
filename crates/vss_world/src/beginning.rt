//! What a core begins with beside its groups.

ghost use Rattle.std.specs.Prelude.{◌≡◌, ◌<◌, ◌+◌, [], length, IfOk, OnOk};
ghost use Rattle.scenario.specs.Bounds.{IsPlan};
ghost use Rattle.scenario.specs.Named.{HasNames};
ghost use Rattle.vss_world.specs.Quiet.{AreFirst, HasRegistered};

use crate::evicted_images::EvictedImages;
use crate::listed_sets::ListedSets;
use block_data::BlockBuf;
use coordinator::{Coordinator, RegisterFault};
use scenario::Scenario;
use sessions::Sessions;
use std::alloc::Global;
use vss_names::{OutOfMemory, Text};

/// All parts of a core but its groups, with their memory.
#[derive(Drop)]
pub(crate) struct Rest {
    pub(crate) sessions: Sessions,
    pub(crate) listed: ListedSets,
    pub(crate) evicted: EvictedImages,
    pub(crate) block: BlockBuf,
}

impl Rest {
    /// As they are before any act.
    pub(crate) fn new(alloc: Global, scenario: &Scenario) -> Result<Rest, OutOfMemory>
        ensures begun { IfOk result (λ rest. AreFirst scenario.now rest.sessions) }
        ensures empty { IfOk result (λ rest. (rest.listed ≡ []) × (rest.evicted ≡ [])) }
    {
        let sessions = first_sessions(alloc, scenario)?;
        let listed = ListedSets::new(alloc)?;
        let evicted = EvictedImages::new(alloc)?;
        let block = BlockBuf::zeroed(alloc)?;
        Ok(Rest {
            sessions,
            listed,
            evicted,
            block,
        })
    }
}

/// The sessions before any act, with all writers of the scenario.
fn first_sessions(alloc: Global, scenario: &Scenario) -> Result<Sessions, OutOfMemory>
    ensures { IfOk result (AreFirst scenario.now) }
{
    let mut coordinator = Coordinator::new(alloc)?;
    for writer in 0..scenario.writers() {
        register(alloc, scenario, &mut coordinator, writer)?;
    }
    Ok(Sessions::new(alloc, coordinator))
}

/// Registers a writer of the scenario, after those before it. No two writers of a scenario have one name.
fn register(
    alloc: Global,
    scenario: &Scenario,
    coordinator: &mut Coordinator,
    writer: u32,
) -> Result<(), OutOfMemory>
    requires in_range { writer < length scenario.now.writers }
    requires plan { IsPlan scenario.now }
    requires names { HasNames scenario.now }
    requires before { HasRegistered scenario.now writer coordinator.old }
    ensures { OnOk result (HasRegistered scenario.now (writer + 1) coordinator.new) }
{
    let name = Text::copy(alloc, scenario.token(scenario.writer_name(writer)))?;
    let metadata = scenario.metadata(writer).copy(alloc)?;
    match coordinator.register(alloc, &name, metadata) {
        Ok(_number) => Ok(()),
        Err(RegisterFault::OutOfMemory) => Err(OutOfMemory),
        Err(RegisterFault::Double { at: _ }) => unreachable!(),
    }
}
