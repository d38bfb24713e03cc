//! Images on volumes of a group, by the numbers of the scenario.

ghost use Rattle.std.specs.Prelude.{◌≡◌, map, vec_capacity};
ghost use Rattle.provider.specs.Calls.{renumbered};

use scenario::{Place, Scenario};
use write_history::Evicted;

/// Gives images, whose volumes are numbered within a group, the numbers that the scenario gives the volumes.
pub(crate) fn renumber(scenario: &Scenario, group: u32, images: &mut Vec<Evicted>)
    ensures told { images.new.items ≡ map (renumbered scenario.now group) images.old.items }
    ensures space { vec_capacity images.new ≡ vec_capacity images.old }
{
    for i in 0..images.len() {
        let volume = images[i].volume;
        images[i].volume = scenario.volume_at(Place { group, volume });
    }
}
