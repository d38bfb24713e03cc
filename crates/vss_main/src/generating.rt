//! A run of the generated scenario of a number, and its summary.

ghost use Rattle.std.specs.Prelude.{◌≡◌, ◌<◌, ◌≤◌, ◌⊎◌, Some, length, option_map, IfOk, IsErrOf};
ghost use Rattle.std.specs.List.{list_any};
ghost use Rattle.vss_names.specs.Faults.{Rose, most};
ghost use Rattle.vss_model.specs.Trail.{is_fault, faults};
ghost use Rattle.vss_main.specs.Generated.{IsOfNumber, IsSummed, IsDigested, IsGeneration, IsSummedWhereItCan};
ghost use Rattle.vss_main.specs.Outside.{around_maker, sink_and_maker};
ghost use Rattle.vss_main.specs.TopCall.{AreGivenBack};

use crate::status::Status;
use crate::stores::store_of;
use generated::laws::generated_texts_are_read;
use generated::{gen_scenario, summary_of};
use io_edge::{Sink, write_all};
use scenario::{Refused, Scenario, parse_text};
use std::alloc::Global;
use std::sync::Wait;
use std::thread::Threads;
use volume_device::{Maker, Store};
use vss_names::{Failed, OutOfMemory, Text};
use vss_play::{Gate, Play, PlayFault, play_all};
use write_history::{Mark, Trail};

/// The generated scenario of a number, read from its text.
fn scenario_of(alloc: Global, number: u32) -> Result<Scenario, OutOfMemory>
    ensures { IfOk result (IsOfNumber number) }
{
    generated_texts_are_read(number);
    let text = gen_scenario(alloc, number)?;
    match parse_text(alloc, text) {
        Ok(scenario) => Ok(scenario),
        Err(Refused::OutOfMemory) => Err(OutOfMemory),
        Err(Refused::Line { .. }) => unreachable!(),
    }
}

fn is_fault(mark: Mark) -> bool
    ensures { result ≡ is_fault mark }
{
    match mark {
        Mark::Clean => false,
        Mark::Fault => true,
        Mark::FaultAfter(_) => true,
    }
}

/// Whether some move has a fault mark.
fn has_a_mark(trail: &Trail) -> bool
    ensures { result ≡ list_any (λ m. is_fault m.mark) trail.now.moves }
{
    trail.moves().iter().any(|item| is_fault(item.mark))
}

/// The digests of the volumes at the end of a run, whose areas are written and whose devices are given back. It failed where a device
/// could not be written or read, or a move has a fault mark.
fn digests_of<R: Threads + Sync, M: Maker>(
    rt: &R,
    played: Play<M::Made>,
    maker: &mut M,
) -> Result<[[u8; 32]; 8], PlayFault>
    requires eight { length played.plan.volumes ≡ 8 }
    ensures digested { IsDigested M.Made.Device played (M.places maker.old) (M.kept maker.old) (M.kept maker.new) (M.count maker.old) (M.count maker.new) result }
    ensures named { M.named maker.new ≡ M.named maker.old }
    ensures later { M.count maker.old ≤ M.count maker.new }
    ensures failed { IsErrOf result PlayFault.OutOfMemory → ⊥ }
{
    let mut play = played;
    let mut digests = [[0; 32]; 8];
    match play.digests(rt, &mut digests) {
        Ok(()) => {}
        Err(Failed) => {
            play.give_back(maker);
            return Err(PlayFault::Failed);
        }
    }
    let marked = has_a_mark(play.trail());
    play.give_back(maker);
    if marked {
        return Err(PlayFault::Failed);
    }
    Ok(digests)
}

/// Runs the generated scenario of a number to its end over devices in a store, its actors in threads, gives the devices back, and sums
/// up how its volumes ended.
fn summary_of_run<R: Threads + Wait + Sync, M: Maker, G: Gate>(
    rt: &R,
    alloc: Global,
    number: u32,
    scenario: Scenario,
    store: &Store,
    maker: &mut M,
    gate: &G,
) -> Result<Text, PlayFault>
    requires of_number { IsOfNumber number scenario }
    ensures summed { IfOk result (λ text. IsSummed M.Made.Device (M.tells maker.old store.now) (around_maker M.Maker maker.old maker.new) number scenario text.bytes) }
    ensures later { M.count maker.old ≤ M.count maker.new }
    ensures given_back { IsErrOf result PlayFault.Failed → AreGivenBack scenario (around_maker M.Maker maker.old maker.new) }
    ensures rose { IsErrOf result PlayFault.Failed → Rose (M.count maker.old) (M.count maker.new) }
    ensures counted { IsErrOf result PlayFault.OutOfMemory → (M.count maker.new ≡ M.count maker.old) ⊎ (M.count maker.new ≡ most) }
{
    let play = Play::new(alloc, scenario, store, maker)?;
    let Ok(played) = play_all(rt, alloc, play, gate) else {
        return Err(PlayFault::OutOfMemory);
    };
    let digests = digests_of(rt, played, maker)?;
    match summary_of(alloc, number, &digests) {
        Ok(text) => Ok(text),
        Err(OutOfMemory) => Err(PlayFault::OutOfMemory),
    }
}

/// Runs the generated scenario of a number, and writes the summary of how it ended.
pub fn run_generated<R: Threads + Wait + Sync, K: Sink, M: Maker, G: Gate>(
    rt: &R,
    alloc: Global,
    number: u32,
    folder: Option<&str>,
    sink: &mut K,
    maker: &mut M,
    gate: &G,
) -> Status
    ensures status { IsGeneration M.Made.Device (λ store. M.tells maker.old store) (option_map (λ s. s.now) folder.entry) number (sink_and_maker K.Sink M.Maker sink.old sink.new maker.old maker.new) result }
    ensures answered { IsSummedWhereItCan (sink_and_maker K.Sink M.Maker sink.old sink.new maker.old maker.new) result }
{
    let scenario = match scenario_of(alloc, number) {
        Ok(scenario) => scenario,
        Err(OutOfMemory) => return Status::OutOfMemory,
    };
    let store = match store_of(alloc, folder) {
        Ok(store) => store,
        Err(OutOfMemory) => return Status::OutOfMemory,
    };
    let text = match summary_of_run(rt, alloc, number, scenario, &store, maker, gate) {
        Ok(text) => text,
        Err(PlayFault::Failed) => return Status::DeviceFault,
        Err(PlayFault::OutOfMemory) => return Status::OutOfMemory,
    };
    match write_all(sink, text.bytes()) {
        Ok(()) => Status::Done,
        Err(_) => Status::WriteFault,
    }
}
