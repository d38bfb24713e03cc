//! The words of a move as they are read back. Each call begins at the place of a word in a line.

ghost use Rattle.std.specs.Prelude.{◌≡◌};
ghost use Rattle.vss_report.specs.Pieces.{pieces_at};
ghost use Rattle.vss_report.specs.Shapes as shapes;

use crate::pieces::{is_over, word_at};
use crate::reply_words::{is_one_number, mark_of_reply};
use crate::shapes::{is, is_answer, is_number, is_order, is_volume, lane_named, writer_named};
use scenario::Scenario;
use write_history::{Actor, Mark, Move};

/// The move of a lane.
fn move_of_lane(scenario: &Scenario, line: &[u8], at: usize) -> Option<Move>
    ensures { result ≡ shapes.move_of_lane scenario.now (pieces_at 32 line.now at) }
{
    let name = word_at(line, at)?;
    let number = word_at(line, name.next)?;
    let lane = lane_named(scenario, name.text)?;
    if !is_number(number.text) {
        return None;
    }
    let mark = mark_of_reply(scenario, line, number.next)?;
    Some(Move {
        actor: Actor::Lane(lane),
        mark,
    })
}

/// Whether what a writer answers is left, and no more.
fn is_one_answer(line: &[u8], at: usize) -> bool
    ensures { result ≡ shapes.is_one shapes.is_answer (pieces_at 32 line.now at) }
{
    let Some(word) = word_at(line, at) else {
        return false;
    };
    is_answer(word.text) && is_over(line, b' ', word.next)
}

/// Whether an order and what a writer answers to it are left.
fn is_answered(line: &[u8], at: usize) -> bool
    ensures { result ≡ shapes.are_two shapes.is_order shapes.is_answer (pieces_at 32 line.now at) }
{
    let Some(word) = word_at(line, at) else {
        return false;
    };
    is_order(word.text) && is_one_answer(line, word.next)
}

/// The move of a writer.
fn move_of_writer(scenario: &Scenario, line: &[u8], at: usize) -> Option<Move>
    ensures { result ≡ shapes.move_of_writer scenario.now (pieces_at 32 line.now at) }
{
    let name = word_at(line, at)?;
    let writer = writer_named(scenario, name.text)?;
    if is_answered(line, name.next) {
        Some(Move {
            actor: Actor::Writer(writer),
            mark: Mark::Clean,
        })
    } else {
        None
    }
}

/// The mark of a flush, by the words after its volume.
fn mark_of_flush(line: &[u8], at: usize) -> Option<Mark>
    ensures { result ≡ shapes.mark_of_flush (pieces_at 32 line.now at) }
{
    let Some(word) = word_at(line, at) else {
        return Some(Mark::Clean);
    };
    if is(word.text, "fault") && is_over(line, b' ', word.next) {
        Some(Mark::Fault)
    } else {
        None
    }
}

/// The mark of a flush, by its volume and the words after it.
fn mark_of_volume(scenario: &Scenario, line: &[u8], at: usize) -> Option<Mark>
    ensures { result ≡ shapes.mark_of_volume scenario.now (pieces_at 32 line.now at) }
{
    let name = word_at(line, at)?;
    if is_volume(scenario, name.text) {
        mark_of_flush(line, name.next)
    } else {
        None
    }
}

/// Whether the name of a volume is left, and no more.
pub fn is_one_volume(scenario: &Scenario, line: &[u8], at: usize) -> bool
    ensures { result ≡ shapes.is_one (shapes.is_volume scenario.now) (pieces_at 32 line.now at) }
{
    let Some(word) = word_at(line, at) else {
        return false;
    };
    is_volume(scenario, word.text) && is_over(line, b' ', word.next)
}

fn is_step_alone(step: &[u8]) -> bool
    ensures { result ≡ shapes.is_step_alone step.now }
{
    is(step, "precommit") || is(step, "cut") || is(step, "postcommit")
}

fn is_step_of_volume(step: &[u8]) -> bool
    ensures { result ≡ shapes.is_step_of_volume step.now }
{
    is(step, "hold") || is(step, "commit") || is(step, "release")
}

/// Whether a word and what is left are a step other than a flush.
fn is_step(scenario: &Scenario, step: &[u8], line: &[u8], at: usize) -> bool
    ensures { result ≡ shapes.is_step scenario.now step.now (pieces_at 32 line.now at) }
{
    if is_step_alone(step) {
        is_over(line, b' ', at)
    } else {
        is_step_of_volume(step) && is_one_volume(scenario, line, at)
    }
}

/// The mark of a step of the provider.
fn mark_of_step(scenario: &Scenario, line: &[u8], at: usize) -> Option<Mark>
    ensures { result ≡ shapes.mark_of_step scenario.now (pieces_at 32 line.now at) }
{
    let step = word_at(line, at)?;
    if is(step.text, "flush") {
        return mark_of_volume(scenario, line, step.next);
    }
    if is_step(scenario, step.text, line, step.next) {
        Some(Mark::Clean)
    } else {
        None
    }
}

/// The mark of an idle stretch.
fn mark_of_idle(line: &[u8], at: usize) -> Option<Mark>
    ensures { result ≡ shapes.mark_of_idle (pieces_at 32 line.now at) }
{
    if is_one_number(line, at) {
        Some(Mark::Clean)
    } else {
        None
    }
}

/// The move of an actor without a name.
fn marked(actor: Actor, mark: Option<Mark>) -> Option<Move>
    ensures { result ≡ shapes.marked actor mark }
{
    let mark = mark?;
    Some(Move { actor, mark })
}

/// A move, by the words after its number.
pub fn move_in(scenario: &Scenario, line: &[u8], at: usize) -> Option<Move>
    ensures { result ≡ shapes.move_in scenario.now (pieces_at 32 line.now at) }
{
    let who = word_at(line, at)?;
    if is(who.text, "lane") {
        move_of_lane(scenario, line, who.next)
    } else if is(who.text, "writer") {
        move_of_writer(scenario, line, who.next)
    } else if is(who.text, "provider") {
        marked(Actor::Advance, mark_of_step(scenario, line, who.next))
    } else if is(who.text, "idle") {
        marked(Actor::Idle, mark_of_idle(line, who.next))
    } else {
        None
    }
}
