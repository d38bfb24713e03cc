//! The provider by itself, without a session.

ghost use Rattle.std.specs.Prelude.{◌<◌, length, IfOk};
ghost use Rattle.provider.specs.Groups.{HasGroups};
ghost use Rattle.vss_world.specs.Quiet.{AreNew};

use crate::in_threads::trial_error::TrialError;
use cow_volume::CowGroup;
use provider::Provider;
use scenario::Scenario;
use set_agenda::Group;
use std::alloc::Global;
use volume_device::{Device, MemMaker, Planned, Store};
use vss_names::{Numbers, Text};
use vss_play::open_new;

/// A provider over the groups of a scenario.
fn provider_over<D: Device>(
    alloc: Global,
    scenario: &Scenario,
    groups: Vec<CowGroup<D>>,
) -> Result<Provider<D>, TrialError>
    requires { AreNew D.told scenario.now groups.items }
    ensures { IfOk result (λ provider. HasGroups scenario.now provider.groups) }
{
    let _facts = scenario.volumes();
    match Provider::new(alloc, groups) {
        Ok(provider) => Ok(provider),
        Err(_groups) => Err(TrialError::OutOfMemory),
    }
}

/// The first volume joins a set twice, and is flushed. Writes what the provider answers.
fn prepare_one<D: Device>(
    rt: &HostRuntime,
    scenario: &Scenario,
    provider: &mut Provider<D>,
) -> Result<(), TrialError>
    requires has { HasGroups scenario.now provider.old.groups }
    requires some { 0 < length scenario.now.volumes }
{
    let joined = provider.begin_prepare(scenario, 0);
    let again = provider.begin_prepare(scenario, 0);
    provider.end_prepare(1);
    let flushed = provider.step(scenario, Group::Flush, Some(0));
    println!(rt; "prepare {joined:?} {again:?}")?;
    println!(rt; "flush {flushed:?}")?;
    Ok(())
}

/// A maker whose device of volume `C` fails at its first flush.
fn failing_maker(alloc: Global) -> Result<MemMaker, TrialError> {
    let mut plan = Vec::new(alloc);
    plan.push(Planned {
        name: Text::copy(alloc, b"C.vol")?,
        refused: false,
        reads: Numbers::new(alloc),
        writes: Numbers::new(alloc),
        flushes: Numbers::copy(alloc, &[1])?,
    })?;
    Ok(MemMaker::new(alloc, plan))
}

/// Prepares the first volume of a scenario, over devices in memory.
pub fn prepare_alone(rt: &HostRuntime, scenario: &Scenario) -> Result<(), TrialError> {
    if scenario.volumes() == 0 {
        return Err(TrialError::Scenario);
    }
    let mut maker = failing_maker(rt.alloc())?;
    let groups = open_new(rt.alloc(), scenario, &Store::Memory, &mut maker)?;
    let mut provider = provider_over(rt.alloc(), scenario, groups)?;
    prepare_one(rt, scenario, &mut provider)
}
