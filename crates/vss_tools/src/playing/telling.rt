//! What helps to go on, below the line that says how the tool ended.

use super::failing::{Failing, plan_of};
use crate::explaining::byte_hint::say_line;
use crate::explaining::line_hint::say_refusal;
use crate::explaining::notes::Notes;
use crate::explaining::piece::Piece::{Number, Shown, Words};
use crate::reading::{line_at, moves_in};
use orders::{Entry, Replayed, Status, order_of};
use scenario::{Scenario, parse, refusal_of};
use std::alloc::Global;
use volume_device::{Device, Maker, MemMaker, Store};
use vss_names::OutOfMemory;
use vss_play::{Moved, Play};
use write_history::Actor;

/// No text that is read has more bytes.
const MOST_BYTES: usize = 1_073_741_824;

/// What is asked: the text of a scenario, that of an order or of a report, if there is one, and which calls of devices fail.
#[derive(Clone, Copy)]
pub struct Asked<'a> {
    pub text: &'a [u8],
    pub order: &'a [u8],
    pub failing: &'a [Failing<'a>],
}

/// Where an order stands still: the moves that were made of it, and the report of them.
#[derive(Clone, Copy)]
struct Stop<'a> {
    text: &'a [u8],
    scenario: &'a Scenario,
    entries: &'a [Entry],
    report: &'a str,
}

/// The scenario of a text, if it is one.
fn scenario_of(alloc: Global, text: &[u8]) -> Option<Scenario> {
    if MOST_BYTES < text.len() {
        return None;
    }
    parse(alloc, text).ok()
}

/// The moves of an order.
fn entries_of(alloc: Global, scenario: &Scenario, order: &[u8]) -> Option<Vec<Entry>> {
    if MOST_BYTES < order.len() {
        return None;
    }
    order_of(alloc, scenario, order).ok()
}

/// Makes these moves up to the first that may not come.
fn follow<D: Device>(alloc: Global, play: &mut Play<D>, entries: &[Entry]) {
    for entry in entries {
        let Ok(Moved::Moved) = play.step(alloc, entry.actor) else {
            return;
        };
    }
}

/// A copy of a text.
fn text_of(alloc: Global, bytes: &[u8]) -> Option<String> {
    String::from_utf8(bytes.to_vec(alloc).ok()?).ok()
}

/// The report of these moves up to the first that may not come.
fn report_of<M: Maker>(
    alloc: Global,
    scenario: Scenario,
    entries: &[Entry],
    maker: &mut M,
) -> Option<String> {
    match Play::new(alloc, scenario, &Store::Memory, maker) {
        Ok(mut play) => {
            follow(alloc, &mut play, entries);
            text_of(alloc, play.lines())
        }
        Err(_) => None,
    }
}

/// The report of these moves of what is asked.
fn played(alloc: Global, asked: Asked<'_>, entries: &[Entry]) -> Option<String> {
    let mut maker = MemMaker::new(alloc, plan_of(alloc, asked.failing).ok()?);
    let scenario = scenario_of(alloc, asked.text)?;
    report_of(alloc, scenario, entries, &mut maker)
}

/// The name of a lane.
fn lane_name(scenario: &Scenario, lane: u32) -> &[u8] {
    if lane < scenario.lanes() {
        scenario.token(scenario.lane_name(lane))
    } else {
        &[]
    }
}

/// The name of a writer.
fn writer_name(scenario: &Scenario, writer: u32) -> &[u8] {
    if writer < scenario.writers() {
        scenario.token(scenario.writer_name(writer))
    } else {
        &[]
    }
}

/// The name of the writer as which a lane acts.
fn writer_of(scenario: &Scenario, lane: u32) -> &[u8] {
    if lane < scenario.lanes() {
        writer_name(scenario, scenario.acts_as(lane).unwrap_or(u32::MAX))
    } else {
        &[]
    }
}

/// Whether a volume is held at the end of a report.
fn is_held(report: &str, volume: &[u8]) -> bool {
    let mut held = false;
    for line in report.lines() {
        let (step, name) = line.rsplit_once(' ').unwrap_or(("", ""));
        if line.starts_with("= set ") {
            held = false;
        } else if name.as_bytes() == volume {
            held = step.ends_with("provider hold") || held && !step.ends_with("provider release");
        }
    }
    held
}

/// Says why a lane waits, and at which of its lines.
fn say_lane(notes: &mut Notes, stop: Stop<'_>, lane: u32) -> Result<(), OutOfMemory> {
    let all = stop.entries.iter();
    let made = all.filter(|entry| entry.actor == Actor::Lane(lane)).count();
    let name = Shown(lane_name(stop.scenario, lane));
    let Some(line) = stop
        .scenario
        .line(lane, u32::try_from(made).unwrap_or(u32::MAX))
    else {
        return notes.say("lane {} has made all its lines", &[name]);
    };
    let shown = line_at(stop.text, line.number);
    notes.say(
        "lane {} waits at line {}, `{}`",
        &[name, Number(u64::from(line.number)), Shown(shown)],
    )?;
    let volume = shown.split(|byte| *byte == b' ').nth(1).unwrap_or(&[]);
    if shown.starts_with(b"await") {
        notes.add("orders or steps that it began are under way")
    } else if shown.starts_with(b"begin") {
        notes.add("another lane has the session, until its `end`")
    } else if is_held(stop.report, volume) {
        notes.say("volume {} is held, until it is released", &[Shown(volume)])
    } else {
        let writer = Shown(writer_of(stop.scenario, lane));
        notes.say(
            "it acts as writer {}, which is frozen until its thaw",
            &[writer],
        )
    }
}

/// Says why the move of an actor may not come.
fn say_wait(notes: &mut Notes, stop: Stop<'_>, actor: Actor) -> Result<(), OutOfMemory> {
    match actor {
        Actor::Lane(lane) => say_lane(notes, stop, lane),
        Actor::Writer(writer) => notes.say(
            "writer {} has no order to answer now",
            &[Shown(writer_name(stop.scenario, writer))],
        ),
        Actor::Advance => notes.add("the provider has no step to make now"),
        Actor::Idle => notes.add(
            "time passes only if no lane, no writer and not the provider can move",
        ),
    }
}

/// What a move is called in an order.
fn add_actor(list: &mut String, scenario: &Scenario, actor: Actor) -> Result<(), OutOfMemory> {
    let none: &[u8] = &[];
    let (word, name) = match actor {
        Actor::Lane(lane) => ("lane ", lane_name(scenario, lane)),
        Actor::Writer(writer) => ("writer ", writer_name(scenario, writer)),
        Actor::Advance => ("provider", none),
        Actor::Idle => ("idle", none),
    };
    list.push_str(if list.is_empty() { "" } else { ", " })?;
    list.push_str(word)?;
    Ok(list.push_str(std::str::from_utf8(name).unwrap_or(""))?)
}

/// All who may move, in turn.
fn actors_of(alloc: Global, scenario: &Scenario) -> Result<Vec<Actor>, OutOfMemory> {
    let mut actors = Vec::new(alloc);
    for lane in 0..scenario.lanes() {
        actors.push(Actor::Lane(lane))?;
    }
    for writer in 0..scenario.writers() {
        actors.push(Actor::Writer(writer))?;
    }
    actors.push(Actor::Advance)?;
    actors.push(Actor::Idle)?;
    Ok(actors)
}

/// Says which moves may come behind these, of which the report has so many bytes.
fn say_next(
    notes: &mut Notes,
    asked: Asked<'_>,
    scenario: &Scenario,
    entries: &mut Vec<Entry>,
    before: usize,
) -> Result<(), OutOfMemory> {
    let alloc = notes.alloc();
    let mut list = String::new(alloc);
    for actor in &actors_of(alloc, scenario)? {
        entries.push(Entry {
            actor: *actor,
            place: 0,
        })?;
        let after = match played(alloc, asked, entries.as_slice()) {
            Some(report) => report.len(),
            None => 0,
        };
        let _ = entries.pop();
        if before < after {
            add_actor(&mut list, scenario, *actor)?;
        }
    }
    if list.is_empty() {
        return notes.add("no move may come any more: the run is complete");
    }
    notes.say("these may come: {}", &[Words(list.as_str())])
}

/// Says who waits for what where a move of an order may not come, and which moves may.
fn say_standstill(notes: &mut Notes, asked: Asked<'_>, actor: Actor) -> Result<(), OutOfMemory> {
    let alloc = notes.alloc();
    let Some(scenario) = scenario_of(alloc, asked.text) else {
        return Ok(());
    };
    let Some(mut entries) = entries_of(alloc, &scenario, asked.order) else {
        return Ok(());
    };
    let Some(report) = played(alloc, asked, &entries) else {
        return Ok(());
    };
    entries.truncate(moves_in(report.as_str()));
    let stop = Stop {
        text: asked.text,
        scenario: &scenario,
        report: report.as_str(),
        entries: entries.as_slice(),
    };
    say_wait(notes, stop, actor)?;
    say_next(notes, asked, &scenario, &mut entries, report.len())
}

/// Says why a scenario is refused, or that the text beside it is one.
fn say_scenario(notes: &mut Notes, asked: Asked<'_>) -> Result<(), OutOfMemory> {
    let alloc = notes.alloc();
    if scenario_of(alloc, asked.order).is_some() {
        return notes.add("the second file is a scenario: are the two swapped?");
    }
    if MOST_BYTES < asked.text.len() {
        return Ok(());
    }
    match refusal_of(alloc, asked.text)? {
        Some(refusal) => say_refusal(notes, asked.text, &refusal),
        None => Ok(()),
    }
}

/// Says of whom an order can ask for moves.
fn say_actors(notes: &mut Notes, asked: Asked<'_>) -> Result<(), OutOfMemory> {
    let alloc = notes.alloc();
    let mut list = String::new(alloc);
    if let Some(scenario) = scenario_of(alloc, asked.text) {
        for actor in &actors_of(alloc, &scenario)? {
            add_actor(&mut list, &scenario, *actor)?;
        }
    }
    notes.say("moves are those of {}", &[Words(list.as_str())])
}

/// Says what a report has in a line that is another than expected.
fn say_unlike(notes: &mut Notes, asked: Asked<'_>, line: u32) -> Result<(), OutOfMemory> {
    say_line(notes, asked.order, line)?;
    notes.add("is it a report of this scenario, as the program wrote it?")
}

/// Says what helps to go on where a call ended so.
pub fn say_called(notes: &mut Notes, asked: Asked<'_>, status: Status) -> Result<(), OutOfMemory> {
    match status {
        Status::ScenarioRefused { .. } => say_scenario(notes, asked),
        Status::MayNotCome { entry, .. } => say_standstill(notes, asked, entry.actor),
        Status::NoReport { line } => say_unlike(notes, asked, line),
        Status::OrderRefused { line, .. } => {
            say_line(notes, asked.order, line)?;
            say_actors(notes, asked)
        }
        _ => Ok(()),
    }
}

/// Says what helps to go on where a replay ended so.
pub fn say_again(
    notes: &mut Notes,
    asked: Asked<'_>,
    replayed: &Replayed,
) -> Result<(), OutOfMemory> {
    let line = match replayed {
        Replayed::ScenarioRefused { .. } => return say_scenario(notes, asked),
        Replayed::Differs { line, .. } => *line,
        _ => return Ok(()),
    };
    if line_at(asked.order, line).is_empty() {
        return notes.add(
            "the report ends there: was all of it written, and is it of this scenario?",
        );
    }
    say_unlike(notes, asked, line)
}
