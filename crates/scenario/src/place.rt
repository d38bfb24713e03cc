//! Where the volumes of a scenario are.

ghost use Rattle.std.specs.Prelude.{◌≡◌, ◌<◌, length, IfOk};
ghost use Rattle.std.specs.List.{position};
ghost use Rattle.scenario.specs.Places.{ArePlaces, IsPlaceIn, is_place};

use crate::volume_row::VolumeRow;
use std::alloc::Global;
use vss_names::OutOfMemory;

/// Where a volume is: its group, and its number within the group, counted from 0.
#[derive(Clone, Copy, Debug, PartialEq, Eq)]
pub struct Place {
    pub group: u32,
    pub volume: u32,
}

/// Where a volume is. The volumes before it are counted that are of its group.
fn place_of(rows: &[VolumeRow], v: usize) -> Place
    requires few { length rows.now < 4294967296 }
    requires volume { v < length rows.now }
    ensures { IsPlaceIn rows.now v result.group result.volume }
{
    let group = rows[v].group;
    let mut volume = 0u32;
    for other in 0..v {
        if rows[other].group == group {
            volume += 1;
        }
    }
    Place { group, volume }
}

/// Which of some places is a given one.
pub(crate) fn find_place(places: &[Place], place: Place) -> Option<usize>
    ensures { result ≡ position (is_place place) places.now }
{
    places.iter().position(|other| other.group == place.group && other.volume == place.volume)
}

/// The places of all volumes, in order.
pub(crate) fn places_of(alloc: Global, rows: &[VolumeRow]) -> Result<Vec<Place>, OutOfMemory>
    requires { length rows.now < 4294967296 }
    ensures { IfOk result (λ places. ArePlaces rows.now (length rows.now) places.items) }
{
    let mut places = Vec::with_capacity(alloc, rows.len())?;
    for v in 0..rows.len() {
        places.push(place_of(rows, v))?;
    }
    Ok(places)
}
