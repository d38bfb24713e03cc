//! The scenario of a job: one volume of one block for each of its volumes, its writers, a lane `backup` with the calls of a backup, and a lane
//! `clock`.

use crate::driving::job::Job;
use crate::driving::members::Members;
use crate::driving::place::number_of;
use component_doc::{AddFault, Metas};
use scenario::{Op, Refused, Scenario, ScenarioBuilder};
use std::alloc::{AllocError, AllocFailed, Global};
use vss_names::OutOfMemory;
use writer_meta::Metadata;

/// Why a job has no setting.
#[derive(Clone, Copy, Debug, PartialEq, Eq)]
pub enum SettingFault {
    /// A volume of this number may not be in a scenario: its name, or how many there are.
    Volume { volume: u32 },
    /// A writer of this number may not: its name, its document, or how many there are.
    Writer { writer: u32 },
    /// The component of the holding of this number is none of its writer.
    Files { holding: u32 },
    /// The component that is taken at this place is none of its writer.
    NotFound { taken: u32 },
    /// It comes only with another component.
    NotSelectable { taken: u32 },
    TakenTwice { taken: u32 },
    OutOfMemory,
}

impl SettingFault {
    /// That a selection refuses what is taken at a place.
    pub(crate) fn of_taken(taken: u32, fault: AddFault) -> SettingFault {
        match fault {
            AddFault::NotFound => SettingFault::NotFound { taken },
            AddFault::NotSelectable => SettingFault::NotSelectable { taken },
            AddFault::AlreadyExists => SettingFault::TakenTwice { taken },
            AddFault::OutOfMemory => SettingFault::OutOfMemory,
        }
    }
}

impl From<OutOfMemory> for SettingFault {
    fn from(_refused: OutOfMemory) -> SettingFault {
        SettingFault::OutOfMemory
    }
}

impl From<AllocError> for SettingFault {
    fn from(_refused: AllocError) -> SettingFault {
        SettingFault::OutOfMemory
    }
}

impl<T: Drop> From<AllocFailed<T>> for SettingFault {
    fn from(_refused: AllocFailed<T>) -> SettingFault {
        SettingFault::OutOfMemory
    }
}

/// The scenario of a job, the lines of its lane `backup` as text, and who and what is in the set.
#[derive(Drop)]
pub struct Setting {
    pub scenario: Scenario,
    pub lines: Vec<String>,
    pub members: Members,
}

/// How many writers a scenario may have.
const MOST_WRITERS: usize = 64;

/// The number of the lane `backup`.
pub const BACKUP: u32 = 0;
/// The number of the lane `clock`.
pub const CLOCK: u32 = 1;

/// What a refused line of the builder comes to.
fn of_refused(refused: Refused, fault: SettingFault) -> SettingFault {
    match refused {
        Refused::OutOfMemory => SettingFault::OutOfMemory,
        Refused::Line { .. } => fault,
    }
}

/// The metadata of the writers.
fn metadata_of(alloc: Global, job: &Job<'_>) -> Result<Vec<Metadata>, SettingFault> {
    let mut all = Vec::new(alloc);
    for (place, writer) in job.writers.iter().enumerate() {
        match Metadata::from_json(alloc, writer.document.as_bytes()) {
            Ok(metadata) => all.push(metadata)?,
            Err(_) => {
                return Err(SettingFault::Writer {
                    writer: number_of(place),
                });
            }
        }
    }
    Ok(all)
}

/// Who takes part, and which volumes are in the set.
#[tactic(auto, using(crate::proofs::Few::few_of))]
fn members_of(alloc: Global, job: &Job<'_>) -> Result<Members, SettingFault> {
    let all = metadata_of(alloc, job)?;
    let mut known = Vec::new(alloc);
    for metadata in &all {
        known.push(Some(metadata))?;
    }
    let metas = Metas::of(known);
    if metas.len() > MOST_WRITERS {
        return Err(SettingFault::Writer {
            writer: MOST_WRITERS as u32,
        });
    }
    let are_allowed = metas.are_allowed(alloc)?;
    if !are_allowed {
        return Err(SettingFault::Writer { writer: 0 });
    }
    Members::of(alloc, job, &metas)
}

/// Declares the volumes and the writers.
fn declare(
    alloc: Global,
    job: &Job<'_>,
    mut builder: ScenarioBuilder,
) -> Result<ScenarioBuilder, SettingFault> {
    for (place, volume) in job.volumes.iter().enumerate() {
        let fault = SettingFault::Volume {
            volume: number_of(place),
        };
        builder = match builder.volume(alloc, volume.name.as_bytes(), 1, 0) {
            Ok(builder) => builder,
            Err(refused) => return Err(of_refused(refused, fault)),
        };
    }
    for (place, writer) in job.writers.iter().enumerate() {
        let fault = SettingFault::Writer {
            writer: number_of(place),
        };
        let Ok(metadata) = Metadata::from_json(alloc, writer.document.as_bytes()) else {
            return Err(fault);
        };
        builder = match builder.writer(alloc, writer.name.as_bytes(), metadata) {
            Ok(builder) => builder,
            Err(refused) => return Err(of_refused(refused, fault)),
        };
    }
    Ok(builder)
}

/// The builder with one more line of the lane, and the line's text.
fn with_line(
    alloc: Global,
    builder: ScenarioBuilder,
    lines: &mut Vec<String>,
    op: Op,
    text: String,
) -> Result<ScenarioBuilder, SettingFault> {
    lines.push(text)?;
    match builder.line(alloc, op) {
        Ok(builder) => Ok(builder),
        Err(refused) => Err(of_refused(refused, SettingFault::Volume { volume: 0 })),
    }
}

/// Adds the lines that choose components.
fn choose(
    alloc: Global,
    job: &Job<'_>,
    mut builder: ScenarioBuilder,
    lines: &mut Vec<String>,
) -> Result<ScenarioBuilder, SettingFault> {
    for (place, taken) in job.taken.iter().enumerate() {
        let (writer, full) = (taken.writer, taken.component);
        let fault = SettingFault::NotFound {
            taken: number_of(place),
        };
        let name = match job.writers.get(writer as usize) {
            Some(writer) => writer.name,
            None => "",
        };
        lines.push(format!(in alloc; "component {name} {full}")?)?;
        builder = match builder.component(alloc, writer, full.as_bytes()) {
            Ok(builder) => builder,
            Err(refused) => return Err(of_refused(refused, fault)),
        };
    }
    Ok(builder)
}

/// Adds the lines that add the volumes of the set.
fn add_volumes(
    alloc: Global,
    job: &Job<'_>,
    volumes: &[u32],
    mut builder: ScenarioBuilder,
    lines: &mut Vec<String>,
) -> Result<ScenarioBuilder, SettingFault> {
    for volume in volumes {
        let name = match job.volumes.get(*volume as usize) {
            Some(volume) => volume.name,
            None => "",
        };
        let text = format!(in alloc; "add {name}")?;
        builder = with_line(alloc, builder, lines, Op::Add { volume: *volume }, text)?;
    }
    Ok(builder)
}

/// The calls before the components are chosen.
fn begin(
    alloc: Global,
    all: bool,
    builder: ScenarioBuilder,
    lines: &mut Vec<String>,
) -> Result<ScenarioBuilder, SettingFault> {
    let text = String::from_str(alloc, if all { "begin 9 all" } else { "begin 9" })?;
    let op = Op::Begin { context: 9, all };
    let mut builder = with_line(alloc, builder, lines, op, text)?;
    for (op, word) in [(Op::Gather, "gather"), (Op::Await, "await")] {
        builder = with_line(alloc, builder, lines, op, String::from_str(alloc, word)?)?;
    }
    Ok(builder)
}

/// The calls from the preparation on.
fn go_through(
    alloc: Global,
    mut builder: ScenarioBuilder,
    lines: &mut Vec<String>,
) -> Result<ScenarioBuilder, SettingFault> {
    for (op, word) in [
        (Op::Prepare, "prepare"),
        (Op::Await, "await"),
        (Op::Snapshot, "snapshot"),
        (Op::Await, "await"),
        (Op::Complete, "complete"),
        (Op::Await, "await"),
        (Op::End, "end"),
    ] {
        builder = with_line(alloc, builder, lines, op, String::from_str(alloc, word)?)?;
    }
    Ok(builder)
}

/// Begins a lane.
fn with_lane(
    alloc: Global,
    builder: ScenarioBuilder,
    name: &str,
) -> Result<ScenarioBuilder, SettingFault> {
    match builder.lane(alloc, name.as_bytes(), None) {
        Ok(builder) => Ok(builder),
        Err(refused) => Err(of_refused(refused, SettingFault::Volume { volume: 0 })),
    }
}

impl Setting {
    /// That of a job.
    pub fn of(alloc: Global, job: &Job<'_>) -> Result<Setting, SettingFault> {
        let members = members_of(alloc, job)?;
        let mut lines = Vec::new(alloc);
        let builder = declare(alloc, job, ScenarioBuilder::new(alloc))?;
        let builder = with_lane(alloc, builder, "backup")?;
        let builder = begin(alloc, job.taken.is_empty(), builder, &mut lines)?;
        let builder = choose(alloc, job, builder, &mut lines)?;
        let text = String::from_str(alloc, "start")?;
        let builder = with_line(alloc, builder, &mut lines, Op::Start, text)?;
        let builder = add_volumes(alloc, job, &members.volumes, builder, &mut lines)?;
        let builder = go_through(alloc, builder, &mut lines)?;
        let builder = with_lane(alloc, builder, "clock")?;
        Ok(Setting {
            scenario: builder.finish(alloc)?,
            lines,
            members,
        })
    }
}
