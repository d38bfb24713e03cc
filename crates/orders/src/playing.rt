//! A run by an order, from its beginning to its report. Its devices are in memory. At the end of a run that has a report its maker gets them
//! back, though no clause says so; else they are dropped.

ghost use Rattle.std.specs.Prelude.{◌≡◌, IfOk, IfErr, IsErrOf};
ghost use Rattle.vss_names.specs.Faults.{Rose};
ghost use Rattle.vss_play.specs.Played.{IsKept};
ghost use Rattle.orders.specs.Again.{IsReplayed};
ghost use Rattle.orders.specs.Followed.{IsEndedInTurn};
ghost use Rattle.orders.specs.Runs.{IsOrdered, IsOfSeed, IsUnplayed, unplayed_at, unplayed_by};

use crate::drawing::play_drawn;
use crate::entry::Entry;
use crate::following::{follow, follow_far};
use crate::halted::Halted;
use crate::unplayed::Unplayed;
use scenario::Scenario;
use std::alloc::Global;
use std::thread::Threads;
use volume_device::{Device, Maker, Store};
use vss_names::Text;
use vss_play::{Play, PlayFault, play_in_turn};
use write_history::Move;

/// The report of a run that goes on in turn to its end.
fn report_in_turn<R: Threads + Sync, M: Maker>(
    rt: &R,
    alloc: Global,
    play: Play<M::Made>,
    maker: &mut M,
) -> Result<Text, PlayFault>
    ensures ended { IfOk result (IsEndedInTurn M.Made.Device play) }
    ensures rose { IsErrOf result PlayFault.Failed → Rose (M.count maker.old) (M.count maker.new) }
{
    let Ok(played) = play_in_turn(alloc, play) else {
        return Err(PlayFault::OutOfMemory);
    };
    played.finish(rt, maker)
}

/// Why a run has no report that halted.
fn unplayed_of(halted: Halted) -> Unplayed
    ensures { result ≡ unplayed_at halted }
{
    match halted {
        Halted::At { entry, why } => Unplayed::Halted { entry, why },
        Halted::OutOfMemory => Unplayed::OutOfMemory,
    }
}

/// Lets a run go that has no report, and says why it has none.
fn let_go<D: Device>(play: Play<D>, halted: Halted) -> Unplayed
    ensures why { result ≡ unplayed_at halted }
    ensures kept { IsKept D.told play }
{
    let _facts = play.lanes();
    unplayed_of(halted)
}

/// Why a run has no report that did not halt.
fn unplayed(fault: PlayFault) -> Unplayed
    ensures { result ≡ unplayed_by fault }
{
    match fault {
        PlayFault::Failed => Unplayed::Failed,
        PlayFault::OutOfMemory => Unplayed::OutOfMemory,
    }
}

/// The report of a run that makes the moves of an order, and then goes on in turn to its end.
pub fn report_of_order<R: Threads + Sync, M: Maker>(
    rt: &R,
    alloc: Global,
    scenario: Scenario,
    entries: &[Entry],
    maker: &mut M,
) -> Result<Text, Unplayed>
    ensures ran { IfOk result (λ report. IsOrdered M.Made.count (M.tells maker.old Store.Memory) scenario entries.now report.bytes) }
    ensures unplayed { IfErr result (IsUnplayed M.Made.count scenario entries.now (M.count maker.old) (M.count maker.new)) }
{
    let mut play = match Play::new(alloc, scenario, &Store::Memory, maker) {
        Ok(play) => play,
        Err(fault) => return Err(unplayed(fault)),
    };
    match follow(alloc, &mut play, entries) {
        Ok(()) => {}
        Err(halted) => return Err(let_go(play, halted)),
    }
    match report_in_turn(rt, alloc, play, maker) {
        Ok(report) => Ok(report),
        Err(fault) => Err(unplayed(fault)),
    }
}

/// The report of a run whose order is drawn by a number.
pub fn report_of_seed<R: Threads + Sync, M: Maker>(
    rt: &R,
    alloc: Global,
    scenario: Scenario,
    number: u32,
    maker: &mut M,
) -> Result<Text, PlayFault>
    ensures ran { IfOk result (λ report. IsOfSeed M.Made.count (M.tells maker.old Store.Memory) scenario number report.bytes) }
    ensures rose { IsErrOf result PlayFault.Failed → Rose (M.count maker.old) (M.count maker.new) }
{
    let play = Play::new(alloc, scenario, &Store::Memory, maker)?;
    let Ok(played) = play_drawn(alloc, play, number) else {
        return Err(PlayFault::OutOfMemory);
    };
    played.finish(rt, maker)
}

/// The report of a run that makes these moves with their marks, as far as they may come, and then goes on in turn to its end.
pub fn report_of_replay<R: Threads + Sync, M: Maker>(
    rt: &R,
    alloc: Global,
    scenario: Scenario,
    moves: &[Move],
    maker: &mut M,
) -> Result<Text, PlayFault>
    ensures ran { IfOk result (λ report. IsReplayed M.Made.count (M.tells maker.old Store.Memory) scenario moves.now report.bytes) }
    ensures rose { IsErrOf result PlayFault.Failed → Rose (M.count maker.old) (M.count maker.new) }
{
    let mut play = Play::new(alloc, scenario, &Store::Memory, maker)?;
    match follow_far(alloc, &mut play, moves) {
        Ok(()) => {}
        Err(_) => {
            let _ = let_go(play, Halted::OutOfMemory);
            return Err(PlayFault::OutOfMemory);
        }
    }
    report_in_turn(rt, alloc, play, maker)
}
