//! The calls of this crate: from the bytes of a scenario and of an order, or a number, to the bytes of a report.

ghost use Rattle.std.specs.Prelude.{◌≡◌, ◌<◌, ◌≤◌, List, ℕ, length};
ghost use Rattle.orders.specs.Calls.{IsOrderCall, IsSeedCall, status_of_fault, status_of_cause};

use crate::order_fault::OrderFault;
use crate::playing::{report_of_order, report_of_seed};
use crate::reading::order_of;
use crate::status::Status;
use crate::unplayed::Unplayed;
use io_edge::{Sink, write_all};
use scenario::{Refused, parse};
use std::alloc::Global;
use std::thread::Threads;
use volume_device::{Maker, Store};
use vss_play::PlayFault;

/// How a call ends with a text that is no order.
fn refused(fault: OrderFault) -> Status
    ensures { result ≡ status_of_fault fault }
{
    match fault {
        OrderFault::Line { line, reason } => Status::OrderRefused { line, reason },
        OrderFault::NoReport { line } => Status::NoReport { line },
        OrderFault::OutOfMemory => Status::OutOfMemory,
    }
}

/// How a call ends with an order that has no report.
fn unplayed(why: Unplayed) -> Status
    ensures { result ≡ status_of_cause why }
{
    match why {
        Unplayed::Halted { entry, why } => Status::MayNotCome { entry, why },
        Unplayed::Failed => Status::DeviceFault,
        Unplayed::OutOfMemory => Status::OutOfMemory,
    }
}

/// Plays a scenario over devices in memory with its moves in an order, what the order leaves in turn, and writes the report.
pub fn run_order<R: Threads + Sync, K: Sink, M: Maker>(
    rt: &R,
    alloc: Global,
    text: &[u8],
    order: &[u8],
    sink: &mut K,
    maker: &mut M,
) -> Status
    requires text { length text.now < 4294967295 }
    requires order { length order.now < 4294967295 }
    ensures { IsOrderCall M.Made.count (M.tells maker.old Store.Memory) text.now order.now (record {
      taken_first = K.taken sink.old;
      taken_last = K.taken sink.new;
      writes_first = K.count sink.old;
      writes_last = K.count sink.new;
      count_first = M.count maker.old;
      count_last = M.count maker.new;
    }) result }
{
    let scenario = match parse(alloc, text) {
        Ok(scenario) => scenario,
        Err(Refused::Line { line, reason }) => return Status::ScenarioRefused { line, reason },
        Err(Refused::OutOfMemory) => return Status::OutOfMemory,
    };
    let entries = match order_of(alloc, &scenario, order) {
        Ok(entries) => entries,
        Err(fault) => return refused(fault),
    };
    let report = match report_of_order(rt, alloc, scenario, &entries, maker) {
        Ok(report) => report,
        Err(why) => return unplayed(why),
    };
    match write_all(sink, report.bytes()) {
        Ok(()) => Status::Done,
        Err(_) => Status::WriteFault,
    }
}

/// Plays a scenario over devices in memory in the order that a number draws, and writes the report.
pub fn run_seed<R: Threads + Sync, K: Sink, M: Maker>(
    rt: &R,
    alloc: Global,
    text: &[u8],
    number: u32,
    sink: &mut K,
    maker: &mut M,
) -> Status
    requires { length text.now < 4294967295 }
    ensures { IsSeedCall M.Made.count (M.tells maker.old Store.Memory) text.now number (record {
      taken_first = K.taken sink.old;
      taken_last = K.taken sink.new;
      writes_first = K.count sink.old;
      writes_last = K.count sink.new;
      count_first = M.count maker.old;
      count_last = M.count maker.new;
    }) result }
{
    let scenario = match parse(alloc, text) {
        Ok(scenario) => scenario,
        Err(Refused::Line { line, reason }) => return Status::ScenarioRefused { line, reason },
        Err(Refused::OutOfMemory) => return Status::OutOfMemory,
    };
    let report = match report_of_seed(rt, alloc, scenario, number, maker) {
        Ok(report) => report,
        Err(PlayFault::Failed) => return Status::DeviceFault,
        Err(PlayFault::OutOfMemory) => return Status::OutOfMemory,
    };
    match write_all(sink, report.bytes()) {
        Ok(()) => Status::Done,
        Err(_) => Status::WriteFault,
    }
}
