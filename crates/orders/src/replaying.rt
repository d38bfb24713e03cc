//! A report that is replayed: whether a text is the report of a run.

ghost use Rattle.std.specs.Prelude.{◌<◌, ◌≤◌, length, IfOk, IfErr};
ghost use Rattle.orders.specs.Again.{IsAgain, IsAgainOver, IsCompared, IsRead, IsReplayOver, IsReportOfTold, IsUnread};
ghost use Rattle.orders.specs.declared.telling.TheConstants.{MOST_BYTES};

use crate::comparing::first_other;
use crate::playing::report_of_replay;
use crate::replayed::Replayed;
use crate::sure_maker::SureMaker;
use crate::telling::{MOST_BYTES, unmarked};
use scenario::{Refused, Scenario, parse};
use std::alloc::Global;
use std::thread::Threads;
use volume_device::{Maker, Store};
use vss_names::Text;
use vss_play::PlayFault;
use vss_report::moves_told;
use write_history::{Move, Trail};

/// A scenario, and the moves that a text tells as a report of it, up to its first bad line.
#[derive(Drop)]
struct Told {
    scenario: Scenario,
    trail: Trail,
}

/// The scenario of a text, and the moves that a report of it tells.
fn read(alloc: Global, text: &[u8], report: &[u8]) -> Result<Told, Replayed>
    requires text { length text.now < 4294967295 }
    requires report { length report.now ≤ MOST_BYTES }
    ensures read { IfOk result (λ told. IsRead text.now report.now told.scenario told.trail.moves) }
    ensures unread { IfErr result (IsUnread text.now) }
{
    let scenario = match parse(alloc, text) {
        Ok(scenario) => scenario,
        Err(Refused::Line { line, reason }) => {
            return Err(Replayed::ScenarioRefused { line, reason });
        }
        Err(Refused::OutOfMemory) => return Err(Replayed::OutOfMemory),
    };
    let _facts = scenario.volumes();
    match moves_told(alloc, &scenario, report) {
        Ok(trail) => Ok(Told { scenario, trail }),
        Err(_) => Err(Replayed::OutOfMemory),
    }
}

/// The first line of a text that is another than the report's.
fn compared(alloc: Global, text: &[u8], report: &Text) -> Replayed
    requires { length text.now ≤ MOST_BYTES }
    ensures { IsCompared text.now report.now.bytes result }
{
    match first_other(text, report.bytes()) {
        None => Replayed::Same,
        Some(other) => match Text::copy(alloc, other.wanted) {
            Ok(wanted) => Replayed::Differs {
                line: other.line,
                wanted,
            },
            Err(_) => Replayed::OutOfMemory,
        },
    }
}

/// Makes these moves over the devices of a maker, as far as they may come, goes on in turn, and compares the report of that run.
fn replay<R: Threads + Sync, M: Maker>(
    rt: &R,
    alloc: Global,
    scenario: Scenario,
    moves: &[Move],
    report: &[u8],
    maker: &mut M,
) -> Replayed
    requires { length report.now ≤ MOST_BYTES }
    ensures { IsReplayOver M.Made.count (M.tells maker.old Store.Memory) scenario moves.now report.now (M.count maker.old) (M.count maker.new) result }
{
    match report_of_replay(rt, alloc, scenario, moves, maker) {
        Ok(replayed) => compared(alloc, report, &replayed),
        Err(PlayFault::Failed) => Replayed::DeviceFault,
        Err(PlayFault::OutOfMemory) => Replayed::OutOfMemory,
    }
}

/// Replays a report over devices in memory of a maker, which fail as it plans: its moves get the marks that they give. The text is the same
/// only where it is the report of a legal and complete trail of the scenario.
pub fn run_again_over<R: Threads + Sync, M: Maker>(
    rt: &R,
    alloc: Global,
    text: &[u8],
    report: &[u8],
    maker: &mut M,
) -> Replayed
    requires text { length text.now < 4294967295 }
    requires report { length report.now ≤ MOST_BYTES }
    ensures { IsAgainOver M.Made.count (M.tells maker.old Store.Memory) text.now report.now (M.count maker.old) (M.count maker.new) result }
{
    let told = match read(alloc, text, report) {
        Ok(told) => told,
        Err(ended) => return ended,
    };
    let Told { scenario, trail } = told;
    let Ok(moves) = unmarked(alloc, trail.moves()) else {
        return Replayed::OutOfMemory;
    };
    replay(rt, alloc, scenario, &moves, report, maker)
}

/// Replays a report over devices in memory of which no call fails, each move with its mark. The text is the same exactly where it is the
/// report of a legal and complete trail of the scenario, of those that are legible.
pub fn run_again<R: Threads + Sync>(rt: &R, alloc: Global, text: &[u8], report: &[u8]) -> Replayed
    requires text { length text.now < 4294967295 }
    requires report { length report.now ≤ MOST_BYTES }
    ensures { IsAgain text.now report.now result }
{
    let told = match read(alloc, text, report) {
        Ok(told) => told,
        Err(ended) => return ended,
    };
    let Told { scenario, trail } = told;
    let mut maker = SureMaker::new(alloc);
    replay(rt, alloc, scenario, trail.moves(), report, &mut maker)
}

/// The report of a run that begins with the moves that a text tells as a report of a scenario, up to its first bad line and as far as
/// they may come, and goes on in turn, over devices in memory of which no call fails.
pub fn report_of_told<R: Threads + Sync>(
    rt: &R,
    alloc: Global,
    text: &[u8],
    told: &[u8],
) -> Result<Text, Replayed>
    requires text { length text.now < 4294967295 }
    requires told { length told.now ≤ MOST_BYTES }
    ensures told { IfOk result (λ report. IsReportOfTold text.now told.now report.bytes) }
    ensures unread { IfErr result (IsUnread text.now) }
{
    let Told { scenario, trail } = match read(alloc, text, told) {
        Ok(read) => read,
        Err(ended) => return Err(ended),
    };
    let mut maker = SureMaker::new(alloc);
    match report_of_replay(rt, alloc, scenario, trail.moves(), &mut maker) {
        Ok(report) => Ok(report),
        Err(PlayFault::Failed) => Err(Replayed::DeviceFault),
        Err(PlayFault::OutOfMemory) => Err(Replayed::OutOfMemory),
    }
}
