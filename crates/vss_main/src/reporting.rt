//! A run of the scenario that is read, and its report.

ghost use Rattle.std.specs.Prelude.{◌≡◌, ◌<◌, ◌≤◌, ◌↔◌, IfOk, IsErrOf, option_map};
ghost use Rattle.vss_names.specs.Faults.{Rose};
ghost use Rattle.io_edge.specs.Streams.{IfGave};
ghost use Rattle.vss_main.specs.Command.{most_bytes};
ghost use Rattle.vss_main.specs.Outside.{around, around_maker};
ghost use Rattle.vss_main.specs.TopCall.{Ran, IsCounted, AreGivenBack, IsStatus, IsRunWhereItCan};

use crate::status::Status;
use crate::stores::store_of;
use io_edge::{ReadError, Sink, Source, read_all, write_all};
use scenario::{Refused, Scenario, parse_text};
use std::alloc::Global;
use std::sync::Wait;
use std::thread::Threads;
use volume_device::{Maker, Store};
use vss_names::{OutOfMemory, Text};
use vss_play::{Gate, Play, PlayFault, play_all};

/// The most bytes of a scenario.
pub const MOST_BYTES: usize = 16_777_216;

/// Runs a scenario to its end over devices in a store, its actors in threads, closes its report, and gives the devices back.
fn report_of<R: Threads + Wait + Sync, M: Maker, G: Gate>(
    rt: &R,
    alloc: Global,
    scenario: Scenario,
    store: &Store,
    maker: &mut M,
    gate: &G,
) -> Result<Text, PlayFault>
    ensures ran { IfOk result (λ report. Ran M.Made.Device (M.tells maker.old store.now) (around_maker M.Maker maker.old maker.new) scenario report.bytes) }
    ensures later { M.count maker.old ≤ M.count maker.new }
    ensures given_back { IsErrOf result PlayFault.Failed → AreGivenBack scenario (around_maker M.Maker maker.old maker.new) }
    ensures rose { IsErrOf result PlayFault.Failed → Rose (M.count maker.old) (M.count maker.new) }
    ensures counted { IsErrOf result PlayFault.OutOfMemory → IsCounted M.Made.told (around_maker M.Maker maker.old maker.new) scenario }
{
    let _facts = scenario.volumes();
    let play = Play::new(alloc, scenario, store, maker)?;
    let Ok(played) = play_all(rt, alloc, play, gate) else {
        return Err(PlayFault::OutOfMemory);
    };
    played.finish(rt, maker)
}

/// Reads a scenario, runs it, and writes its report.
pub fn run_input<R: Threads + Wait + Sync, S: Source, K: Sink, M: Maker, G: Gate>(
    rt: &R,
    alloc: Global,
    folder: Option<&str>,
    source: &mut S,
    sink: &mut K,
    maker: &mut M,
    gate: &G,
) -> Status
    ensures too_long { IfGave (S.left source.old) (S.left source.new) (λ n. (result ≡ Status.TooLong) ↔ (most_bytes < n)) }
    ensures status { IsStatus M.Made.Device (λ store. M.tells maker.old store) (option_map (λ s. s.now) folder.entry) (around S.Source K.Sink M.Maker source.old source.new sink.old sink.new maker.old maker.new) result }
    ensures answered { IsRunWhereItCan (around S.Source K.Sink M.Maker source.old source.new sink.old sink.new maker.old maker.new) result }
{
    let text = match read_all(alloc, source, MOST_BYTES) {
        Ok(text) => text,
        Err(ReadError::Failed) => return Status::ReadFault,
        Err(ReadError::OutOfMemory) => return Status::OutOfMemory,
        Err(ReadError::TooLong) => return Status::TooLong,
    };
    let scenario = match parse_text(alloc, text) {
        Ok(scenario) => scenario,
        Err(Refused::Line { line, reason }) => return Status::ScenarioRefused { line, reason },
        Err(Refused::OutOfMemory) => return Status::OutOfMemory,
    };
    let store = match store_of(alloc, folder) {
        Ok(store) => store,
        Err(OutOfMemory) => return Status::OutOfMemory,
    };
    let report = match report_of(rt, alloc, scenario, &store, maker, gate) {
        Ok(report) => report,
        Err(PlayFault::Failed) => return Status::DeviceFault,
        Err(PlayFault::OutOfMemory) => return Status::OutOfMemory,
    };
    match write_all(sink, report.bytes()) {
        Ok(()) => Status::Done,
        Err(_) => Status::WriteFault,
    }
}
