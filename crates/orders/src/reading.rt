//! Reading an order.

ghost use Rattle.std.specs.Prelude.{◌≡◌, ◌≤◌, ◌<◌, [], length, Ok, Err, IfOk, IfErr, OnOk};
ghost use Rattle.write_history.specs.declared.trail.TheConstants.{MOST_MOVES};
ghost use Rattle.vss_report.specs.Pieces.{pieces_at};
ghost use Rattle.vss_report.specs.ReadBack.{reading_back};
ghost use Rattle.orders.specs.Order as order;

use crate::asked::Asked;
use crate::entry::Entry;
use crate::order_fault::OrderFault;
use crate::order_lines::asked_by;
use scenario::{Reason, Scenario};
use std::alloc::Global;
use vss_report::pieces::{is_over, piece_at};
use vss_report::shapes::is;
use vss_report::{ReportFault, trail_of};
use write_history::{MOST_MOVES, Move};

/// Whether a line asks for nothing.
fn is_silent(line: &[u8]) -> bool
    ensures { result ≡ order.is_silent line.now }
{
    match line {
        [first, ..] => *first == b'#',
        [] => true,
    }
}

/// Appends the moves that a line asks for, where these are not too many.
fn add_asked(entries: &mut Vec<Entry>, number: u32, asked: Asked) -> Result<(), OrderFault>
    requires { length entries.old.items ≤ MOST_MOVES }
    ensures on { OnOk result (order.with_asked number entries.old.items (Ok asked) ≡ Ok entries.new.items) }
    ensures few { OnOk result (length entries.new.items ≤ MOST_MOVES) }
    ensures bad { IfErr result (order.IsRefusal (order.with_asked number entries.old.items (Ok asked))) }
{
    let more = entries.len() + asked.count as usize;
    if more > MOST_MOVES {
        return Err(OrderFault::Line {
            line: number,
            reason: Reason::TooMany,
        });
    }
    let entry = Entry {
        actor: asked.actor,
        place: number,
    };
    match entries.resize(more, entry) {
        Ok(()) => Ok(()),
        Err(_) => Err(OrderFault::OutOfMemory),
    }
}

/// Takes in what one more line asks for.
fn take_in(
    scenario: &Scenario,
    entries: &mut Vec<Entry>,
    number: u32,
    line: &[u8],
) -> Result<(), OrderFault>
    requires { length entries.old.items ≤ MOST_MOVES }
    ensures on { OnOk result (order.after_line scenario.now number entries.old.items line.now ≡ Ok entries.new.items) }
    ensures few { OnOk result (length entries.new.items ≤ MOST_MOVES) }
    ensures bad { IfErr result (order.IsRefusal (order.after_line scenario.now number entries.old.items line.now)) }
{
    if is_silent(line) {
        return Ok(());
    }
    match asked_by(scenario, line) {
        Ok(asked) => add_asked(entries, number, asked),
        Err(reason) => Err(OrderFault::Line {
            line: number,
            reason,
        }),
    }
}

/// What all lines ask for.
fn read(alloc: Global, scenario: &Scenario, text: &[u8]) -> Result<Vec<Entry>, OrderFault>
    requires { length text.now < 4294967295 }
    ensures read { IfOk result (λ entries. order.read_from scenario.now 1 [] (pieces_at 10 text.now 0) ≡ Ok entries.items) }
    ensures bad { IfErr result (order.IsRefusal (order.read_from scenario.now 1 [] (pieces_at 10 text.now 0))) }
{
    let mut entries = Vec::new(alloc);
    let mut at = 0usize;
    let mut number = 1u32;
    'lines: while at <= text.len() {
        let line = piece_at(text, b'\n', at);
        let next = at + line.len() + 1;
        if is_over(text, b'\n', next) {
            if line.is_empty() {
                return Ok(entries);
            }
            return Err(OrderFault::Line {
                line: number,
                reason: Reason::NoNewline,
            });
        }
        take_in(scenario, &mut entries, number, line)?;
        at = next;
        number += 1;
    }
    Ok(entries)
}

/// The moves of a report.
pub fn entries_of(alloc: Global, moves: &[Move]) -> Result<Vec<Entry>, OrderFault>
    requires { length moves.now ≤ MOST_MOVES }
    ensures entries { IfOk result (λ entries. entries.items ≡ order.entries_from 1 moves.now) }
    ensures memory { IfErr result (λ fault. fault ≡ OrderFault.OutOfMemory) }
{
    let mut entries = Vec::new(alloc);
    let mut place = 0;
    for item in moves {
        place += 1;
        let entry = Entry {
            actor: item.actor,
            place,
        };
        match entries.push(entry) {
            Ok(()) => {}
            Err(_) => return Err(OrderFault::OutOfMemory),
        }
    }
    Ok(entries)
}

/// The moves of a report, which is read back.
fn read_report(alloc: Global, scenario: &Scenario, text: &[u8]) -> Result<Vec<Entry>, OrderFault>
    requires { length text.now < 4294967295 }
    ensures read { IfOk result (λ entries. order.of_report (reading_back scenario.now text.now) ≡ Ok entries.items) }
    ensures bad { IfErr result (order.IsRefusal (order.of_report (reading_back scenario.now text.now))) }
{
    match trail_of(alloc, scenario, text) {
        Ok(trail) => {
            let _few = trail.len();
            entries_of(alloc, trail.moves())
        }
        Err(ReportFault::BadLine(line)) => Err(OrderFault::NoReport { line }),
        Err(ReportFault::OutOfMemory) => Err(OrderFault::OutOfMemory),
    }
}

/// Reads an order, forward and once: lines that ask for moves, or a report, whose moves are taken. A text is refused at its first bad
/// line. Memory is taken for the moves.
#[tactic(auto, unfolding(crate::specs::Order::order_in))]
pub fn order_of(alloc: Global, scenario: &Scenario, text: &[u8]) -> Result<Vec<Entry>, OrderFault>
    requires { length text.now < 4294967295 }
    ensures read { IfOk result (λ entries. order.order_in scenario.now text.now ≡ Ok entries.items) }
    ensures bad { IfErr result (order.IsRefusal (order.order_in scenario.now text.now)) }
{
    if is(piece_at(text, b'\n', 0), "report 1") {
        return read_report(alloc, scenario, text);
    }
    read(alloc, scenario, text)
}
