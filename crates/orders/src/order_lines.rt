//! A line of an order. Each call begins at the place of a word in the line.

ghost use Rattle.std.specs.Prelude.{◌≡◌};
ghost use Rattle.write_history.specs.declared.trail.TheConstants.{MOST_MOVES};
ghost use Rattle.scenario.specs.Numbers as numbers;
ghost use Rattle.vss_report.specs.Pieces.{pieces_at};
ghost use Rattle.orders.specs.Order as lines;

use crate::asked::Asked;
use scenario::numbers::number_in;
use scenario::{Reason, Scenario};
use vss_report::pieces::{is_over, word_at};
use vss_report::shapes::{is, lane_named, writer_named};
use write_history::{Actor, MOST_MOVES};

/// The lane whose name is left, and no more.
fn lane_at(scenario: &Scenario, line: &[u8], at: usize) -> Result<Actor, Reason>
    ensures { result ≡ lines.lane_of scenario.now (pieces_at 32 line.now at) }
{
    let Some(name) = word_at(line, at) else {
        return Err(Reason::BadCount);
    };
    if !is_over(line, b' ', name.next) {
        return Err(Reason::BadCount);
    }
    match lane_named(scenario, name.text) {
        Some(lane) => Ok(Actor::Lane(lane)),
        None => Err(Reason::UnknownName),
    }
}

/// The writer whose name is left, and no more.
fn writer_at(scenario: &Scenario, line: &[u8], at: usize) -> Result<Actor, Reason>
    ensures { result ≡ lines.writer_of scenario.now (pieces_at 32 line.now at) }
{
    let Some(name) = word_at(line, at) else {
        return Err(Reason::BadCount);
    };
    if !is_over(line, b' ', name.next) {
        return Err(Reason::BadCount);
    }
    match writer_named(scenario, name.text) {
        Some(writer) => Ok(Actor::Writer(writer)),
        None => Err(Reason::UnknownName),
    }
}

/// An actor without a name, where nothing is left.
fn alone(actor: Actor, line: &[u8], at: usize) -> Result<Actor, Reason>
    ensures { result ≡ lines.alone actor (pieces_at 32 line.now at) }
{
    if is_over(line, b' ', at) {
        Ok(actor)
    } else {
        Err(Reason::BadCount)
    }
}

/// The actor of the words that are left.
fn actor_at(scenario: &Scenario, line: &[u8], at: usize) -> Result<Actor, Reason>
    ensures { result ≡ lines.actor_of scenario.now (pieces_at 32 line.now at) }
{
    let Some(who) = word_at(line, at) else {
        return Err(Reason::BadCount);
    };
    if is(who.text, "lane") {
        lane_at(scenario, line, who.next)
    } else if is(who.text, "writer") {
        writer_at(scenario, line, who.next)
    } else if is(who.text, "provider") {
        alone(Actor::Advance, line, who.next)
    } else if is(who.text, "idle") {
        alone(Actor::Idle, line, who.next)
    } else {
        Err(Reason::UnknownWord)
    }
}

/// So many moves of an actor, where there is one.
fn counted(count: u32, actor: Result<Actor, Reason>) -> Result<Asked, Reason>
    ensures { result ≡ lines.counted count actor }
{
    match actor {
        Ok(actor) => Ok(Asked { count, actor }),
        Err(reason) => Err(reason),
    }
}

/// So many moves of the actor behind the word `times`.
fn times(scenario: &Scenario, count: u32, line: &[u8], at: usize) -> Result<Asked, Reason>
    ensures { result ≡ lines.times scenario.now count (pieces_at 32 line.now at) }
{
    let Some(word) = word_at(line, at) else {
        return Err(Reason::BadCount);
    };
    if !is(word.text, "times") {
        return Err(Reason::UnknownWord);
    }
    counted(count, actor_at(scenario, line, word.next))
}

fn begins_with_digit(word: &[u8]) -> bool
    ensures { result ≡ lines.begins_with_digit word.now }
{
    match word {
        [first, ..] => b'0' <= *first && *first <= b'9',
        [] => false,
    }
}

/// How many moves a word says.
fn count_in(word: &[u8]) -> Result<u32, Reason>
    ensures { result ≡ numbers.number_in 1 MOST_MOVES word.now }
{
    match number_in(word, 1, MOST_MOVES as u64) {
        Ok(count) => Ok(count as u32),
        Err(reason) => Err(reason),
    }
}

/// What a line asks for.
pub fn asked_by(scenario: &Scenario, line: &[u8]) -> Result<Asked, Reason>
    ensures { result ≡ lines.asked_by scenario.now (pieces_at 32 line.now 0) }
{
    let Some(word) = word_at(line, 0) else {
        return Err(Reason::BadCount);
    };
    if !begins_with_digit(word.text) {
        return counted(1, actor_at(scenario, line, 0));
    }
    match count_in(word.text) {
        Ok(count) => times(scenario, count, line, word.next),
        Err(reason) => Err(reason),
    }
}
