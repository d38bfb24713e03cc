//! Who takes part in a backup, and which volumes are in its set: by the choice of components.

ghost use Rattle.std.specs.Prelude.{◌≡◌, ◌<◌, ◌^◌, length, IfOk, IsTrue};
ghost use Rattle.component_doc.specs.Over.{metas_of, all_have_few};

use crate::driving::job::{Holding, Job};
use crate::driving::place::number_of;
use crate::driving::setting::SettingFault;
use component_doc::{Choice, Metas, Selection};
use std::alloc::Global;
use vss_names::OutOfMemory;
use writer_meta::Metadata;

/// The writers that take part, and the volumes of the set, both in rising order.
#[derive(Drop)]
pub struct Members {
    pub writers: Vec<u32>,
    pub volumes: Vec<u32>,
}

/// The selection of the components that a job takes.
fn selection_of(alloc: Global, job: &Job<'_>, metas: &Metas) -> Result<Selection, SettingFault>
    requires few { IsTrue (all_have_few (metas_of metas.now)) }
    requires many { length metas.now < 2 ^ 32 }
    ensures { IfOk result (λ selection. selection.writers ≡ length metas.now) }
{
    if job.taken.is_empty() {
        return Ok(Selection::all(alloc, metas)?);
    }
    let mut selection = Selection::new(alloc, metas.len() as u32)?;
    for (place, taken) in job.taken.iter().enumerate() {
        match selection.add(alloc, metas, taken.writer, taken.component.as_bytes()) {
            Ok(()) => {}
            Err(fault) => return Err(SettingFault::of_taken(number_of(place), fault)),
        }
    }
    Ok(selection)
}

/// Whether a component is that of this place in its writer's metadata.
fn is_component(
    alloc: Global,
    metas: &Metas,
    choice: Choice,
    name: &str,
) -> Result<bool, OutOfMemory> {
    let Some(metadata) = metas.of_writer(choice.writer) else {
        return Ok(false);
    };
    match metadata.components.items().get(choice.component as usize) {
        Some(component) => Ok(component.full_name(alloc)?.bytes() == name.as_bytes()),
        None => Ok(false),
    }
}

/// Whether one of these components has the files of a volume.
fn is_chosen(
    alloc: Global,
    metas: &Metas,
    choices: &[Choice],
    holding: Holding<'_>,
) -> Result<bool, OutOfMemory> {
    for choice in choices {
        if choice.writer == holding.writer
            && is_component(alloc, metas, *choice, holding.component)?
        {
            return Ok(true);
        }
    }
    Ok(false)
}

/// Whether a volume has files of one of these components.
fn is_in_set(
    alloc: Global,
    job: &Job<'_>,
    metas: &Metas,
    choices: &[Choice],
    volume: u32,
) -> Result<bool, OutOfMemory> {
    for holding in &job.holdings {
        if holding.volume == volume && is_chosen(alloc, metas, choices, *holding)? {
            return Ok(true);
        }
    }
    Ok(false)
}

/// That each component of which a job has files is one of its writer.
fn check_holdings(alloc: Global, job: &Job<'_>, metas: &Metas) -> Result<(), SettingFault> {
    for (place, holding) in job.holdings.iter().enumerate() {
        let mut is_there = false;
        if let Some(metadata) = metas.of_writer(holding.writer) {
            for component in metadata.components.items() {
                is_there |= component.full_name(alloc)?.bytes() == holding.component.as_bytes();
            }
        }
        if !is_there {
            return Err(SettingFault::Files {
                holding: number_of(place),
            });
        }
    }
    Ok(())
}

impl Members {
    /// Those of a job whose writers have these metadata.
    pub fn of(alloc: Global, job: &Job<'_>, metas: &Metas) -> Result<Members, SettingFault>
        requires few { IsTrue (all_have_few (metas_of metas.now)) }
        requires many { length metas.now < 2 ^ 32 }
    {
        check_holdings(alloc, job, metas)?;
        let selection = selection_of(alloc, job, metas)?;
        let choices = selection.chosen(alloc, metas)?;
        let mut volumes = Vec::new(alloc);
        for volume in 0..job.volumes.len() {
            if is_in_set(alloc, job, metas, choices.items(), number_of(volume))? {
                volumes.push(number_of(volume))?;
            }
        }
        let writers = selection.participants(alloc)?.items().to_vec(alloc)?;
        Ok(Members { writers, volumes })
    }
}
