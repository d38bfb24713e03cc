use crate::driving::JobVolume;
use std::alloc::Global;
use vss_names::OutOfMemory;

/// The volumes of a job, and those of them that are in the set.
#[derive(Drop)]
pub struct Chosen<'a> {
    /// The volumes of the job, by their numbers there.
    pub volumes: Vec<JobVolume<'a>>,
    /// The numbers of those in the set.
    pub places: Vec<u32>,
    /// The names of those in the set.
    pub names: Vec<&'a str>,
}

/// Adds the name of a volume of a job, if there is one of this number.
fn add_name<'a>(
    volumes: &[JobVolume<'a>],
    place: u32,
    names: &mut Vec<&'a str>,
) -> Result<(), OutOfMemory> {
    if let Some(of) = volumes.get(place as usize) {
        names.push(of.name)?;
    }
    Ok(())
}

impl<'a> Chosen<'a> {
    /// These volumes, of which those of these numbers are in the set.
    pub fn of(
        alloc: Global,
        volumes: &[JobVolume<'a>],
        places: &[u32],
    ) -> Result<Chosen<'a>, OutOfMemory> {
        let mut names = Vec::new(alloc);
        for place in places {
            add_name(volumes, *place, &mut names)?;
        }
        Ok(Chosen {
            volumes: volumes.to_vec(alloc)?,
            places: places.to_vec(alloc)?,
            names,
        })
    }
}
