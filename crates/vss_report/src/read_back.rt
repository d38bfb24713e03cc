//! Reading a report back: the trail that it tells.

ghost use Rattle.std.specs.Prelude.{◌≡◌, ◌+◌, ◌≤◌, ◌<◌, ◌++◌, ◌∷◌, [], length, Ok, IfOk, IfErr, OnOk};
ghost use Rattle.write_history.specs.declared.trail.TheConstants.{MOST_MOVES};
ghost use Rattle.vss_report.specs.Pieces as pieces;
ghost use Rattle.vss_report.specs.Shapes as shapes;
ghost use Rattle.vss_report.specs.ReadBack.{reading_back, read_from, moves_from, moves_told, AreTold, IsBadAt};

use crate::effect_words::{is_effect, is_end};
use crate::line_kind::LineKind;
use crate::move_words::move_in;
use crate::pieces::{is_over, piece_at, word_at};
use crate::report_fault::ReportFault;
use crate::shapes::is;
use itoa::Buffer;
use scenario::Scenario;
use std::alloc::Global;
use vss_names::OutOfMemory;
use write_history::{MOST_MOVES, Move, Trail};

/// Whether a word is this number of a move, which a run may have.
fn is_next(number: u32, word: &[u8]) -> bool
    ensures { result ≡ shapes.is_next number word.now }
{
    let mut buffer = Buffer::new();
    number as usize <= MOST_MOVES && is(word, buffer.format(number))
}

/// What a line is by the words after its first, where it begins with the number of the next move.
fn kind_of_move(scenario: &Scenario, line: &[u8], at: usize) -> LineKind
    ensures { result ≡ shapes.kind_of_move (shapes.move_in scenario.now (pieces.pieces_at 32 line.now at)) }
{
    match move_in(scenario, line, at) {
        Some(item) => LineKind::Move(item),
        None => LineKind::Bad,
    }
}

/// What a line is, where move `number` is the next.
#[tactic(auto, using(crate::proofs::Joined::from_first), unfolding(crate::specs::Shapes::kind_of))]
fn kind_of(scenario: &Scenario, number: u32, line: &[u8]) -> LineKind
    ensures kind { result ≡ shapes.kind_of scenario.now number line.now }
    ensures may_follow { shapes.MayFollow number result }
{
    let Some(word) = word_at(line, 0) else {
        return LineKind::Bad;
    };
    if is(word.text, "=") {
        if is_effect(scenario, line, word.next) {
            return LineKind::Effect;
        }
        return LineKind::Bad;
    }
    if is(word.text, "end") {
        if is_end(line, word.next) {
            return LineKind::End;
        }
        return LineKind::Bad;
    }
    if is_next(number, word.text) {
        kind_of_move(scenario, line, word.next)
    } else {
        LineKind::Bad
    }
}

/// Appends a move to a trail that is not full.
fn push(trail: &mut Trail, item: Move) -> Result<(), ReportFault>
    requires { length trail.old.moves < MOST_MOVES }
    ensures ok { OnOk result (trail.new.moves ≡ trail.old.moves ++ item ∷ []) }
    ensures err { IfErr result (λ fault. fault ≡ ReportFault.OutOfMemory) }
{
    match trail.push(item) {
        Ok(()) => Ok(()),
        Err(_) => Err(ReportFault::OutOfMemory),
    }
}

/// Appends the moves of the lines from a place on, the second line of a report.
fn read(
    scenario: &Scenario,
    report: &[u8],
    start: usize,
    trail: &mut Trail,
) -> Result<(), ReportFault>
    requires short { length report.now < 4294967295 }
    requires within { start ≤ length report.now }
    requires later { 1 ≤ start }
    requires empty { trail.old.moves ≡ [] }
    ensures read { OnOk result (read_from scenario.now 2 []
        (pieces.pieces_at 10 report.now start) ≡ Ok trail.new.moves) }
    ensures bad { IfErr result (IsBadAt
        (read_from scenario.now 2 [] (pieces.pieces_at 10 report.now start))) }
    ensures told { AreTold result trail.new.moves
        (moves_from scenario.now [] (pieces.pieces_at 10 report.now start)) }
{
    let mut at = start;
    let mut number = 2u32;
    'lines: while at <= report.len() {
        let line = piece_at(report, b'\n', at);
        let next = at + line.len() + 1;
        if is_over(report, b'\n', next) {
            return Err(ReportFault::BadLine(number));
        }
        match kind_of(scenario, trail.len() + 1, line) {
            LineKind::Move(item) => push(trail, item)?,
            LineKind::Effect => {}
            LineKind::End => return Ok(()),
            LineKind::Bad => return Err(ReportFault::BadLine(number)),
        }
        at = next;
        number += 1;
    }
    Err(ReportFault::BadLine(number))
}

/// Appends the moves that a report tells, read forward and once.
#[tactic(auto, using(crate::proofs::Joined::from_first), unfolding(crate::specs::ReadBack::reading_back, crate::specs::ReadBack::moves_told))]
fn read_into(scenario: &Scenario, report: &[u8], trail: &mut Trail) -> Result<(), ReportFault>
    requires short { length report.now < 4294967295 }
    requires empty { trail.old.moves ≡ [] }
    ensures read { OnOk result (reading_back scenario.now report.now ≡ Ok trail.new.moves) }
    ensures bad { IfErr result (IsBadAt (reading_back scenario.now report.now)) }
    ensures told { AreTold result trail.new.moves (moves_told scenario.now report.now) }
{
    let first = piece_at(report, b'\n', 0);
    let next = first.len() + 1;
    if !is(first, "report 1") || is_over(report, b'\n', next) {
        return Err(ReportFault::BadLine(1));
    }
    read(scenario, report, next, trail)
}

/// The trail that a report tells, read forward and once. The closing lines behind `end` are not read. Memory is taken for the
/// moves of the trail.
pub fn trail_of(alloc: Global, scenario: &Scenario, report: &[u8]) -> Result<Trail, ReportFault>
    requires { length report.now < 4294967295 }
    ensures read { IfOk result (λ trail. reading_back scenario.now report.now ≡ Ok trail.moves) }
    ensures bad { IfErr result (IsBadAt (reading_back scenario.now report.now)) }
{
    let mut trail = Trail::new(alloc);
    read_into(scenario, report, &mut trail)?;
    Ok(trail)
}

/// The moves that a text tells before its `end` line, or before its first line that is none of a report of the scenario.
pub fn moves_told(alloc: Global, scenario: &Scenario, text: &[u8]) -> Result<Trail, OutOfMemory>
    requires { length text.now < 4294967295 }
    ensures { IfOk result (λ trail. trail.moves ≡ moves_told scenario.now text.now) }
{
    let mut trail = Trail::new(alloc);
    match read_into(scenario, text, &mut trail) {
        Ok(()) | Err(ReportFault::BadLine(_)) => Ok(trail),
        Err(ReportFault::OutOfMemory) => Err(OutOfMemory),
    }
}
