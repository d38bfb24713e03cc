ghost use Rattle.std.specs.Prelude.{◌≡◌, ◌≤◌, [], filter, length, vec_capacity, IfOk};
ghost use Rattle.write_history.specs.declared.evicted.Evicted.{Evicted as EvictedImage};
ghost use Rattle.scenario.specs.Bounds.{IsBlock};
ghost use Rattle.vss_model.specs.State.{State, is_kept_set};
ghost use Rattle.provider.specs.Groups.{HasGroups};
ghost use Rattle.sessions.specs.Keeps.{Keeps};
ghost use Rattle.vss_world.specs.Changes.{MakesRoom};

use provider::Provider;
use scenario::Scenario;
use sessions::Sessions;
use std::alloc::Global;
use std::marker::Model;
use volume_device::Device;
use vss_model::Evicted;
use vss_names::{MOST_IMAGES, MOST_VOLUMES, OutOfMemory};

/// The most images that a group has.
pub(crate) const MOST_EVICTED: usize = MOST_IMAGES * MOST_VOLUMES as usize;

/// The kept images that a step evicted. Contracts see it as a list; memory for the most that there can be is taken by `new`.
#[derive(Debug, Drop)]
pub(crate) struct EvictedImages {
    items: Vec<Evicted>,
}

impl Model for EvictedImages {
    ghost use Rattle.std.specs.Prelude.{◌≤◌, List, length, vec_capacity};
    ghost use Rattle.write_history.specs.declared.evicted.Evicted.{Evicted};

    ghost Value = { List Evicted };

    ghost view = { λ e. e.items.items };

    ghost invariant = { λ e. (65536 ≤ vec_capacity e.items) × (length e.items.items ≤ 65536) };
}

impl EvictedImages {
    pub(crate) fn new(alloc: Global) -> Result<EvictedImages, OutOfMemory>
        ensures { IfOk result (λ none. none ≡ []) }
    {
        Ok(EvictedImages {
            items: Vec::with_capacity(alloc, MOST_EVICTED)?,
        })
    }

    pub(crate) fn items(&self) -> &[Evicted]
        ensures images { result.now ≡ self.now }
        ensures few { length result.now ≤ 65536 }
    {
        &self.items
    }

    pub(crate) fn clear(&mut self)
        ensures { self.new ≡ [] }
    {
        self.items.clear();
    }

    /// Room is made for a write of the block. The list has the images that go for it and are kept, in order of sets and then of volumes.
    /// The set up to which images go is answered, 0 where none does.
    pub(crate) fn make_room<D: Device>(
        &mut self,
        provider: &mut Provider<D>,
        sessions: &Sessions,
        scenario: &Scenario,
        volume: u32,
        block: u32,
    ) -> u32
        requires block { IsBlock scenario.now volume block }
        requires has { HasGroups scenario.now provider.old.groups }
        requires few { length scenario.now.volumes ≤ 128 }
        ensures { MakesRoom D.Device scenario.now sessions.now provider.old provider.new volume block self.new result }
    {
        let up_to = provider.make_room(scenario, volume, block, &mut self.items);
        keep_complete(&mut self.items, sessions);
        up_to
    }
}

/// Of these images those stay whose set is complete.
fn keep_complete(images: &mut Vec<Evicted>, sessions: &Sessions)
    ensures kept { (st : State) → Keeps sessions.now st → images.new.items ≡ filter (λ (i : EvictedImage). is_kept_set st i.set) images.old.items }
    ensures few { length images.new.items ≤ length images.old.items }
    ensures space { vec_capacity images.new ≡ vec_capacity images.old }
{
    images.retain(|image| sessions.is_complete(image.set));
}
