//! The images that go for a write, listed before they go.

ghost use Rattle.std.specs.Prelude.{◌≡◌, ◌<◌, ◌≤◌, ◌+◌, ◌*◌, ◌++◌, length, vec_capacity, AllPairs};
ghost use Rattle.write_history.specs.Slots.{evicted_of};
ghost use Rattle.cow_volume.specs.Room.{IsNextSet, first_above, holders, images_going};

use crate::copies::{Copies, lesser};
use crate::reads::has_image_near;
use diff_map::place_after;
use volume_device::Device;
use write_history::Evicted;

/// Lists the images of the sets up to one, in order of sets and then of volumes. What the list had is gone.
pub(crate) fn list_going<D: Device>(copies: &Copies<D>, up_to: u32, gone: &mut Vec<Evicted>)
    requires { 512 * length copies.now.area.volumes ≤ vec_capacity gone.old }
    ensures told { gone.new.items ≡ images_going up_to copies.now.images }
    ensures space { vec_capacity gone.new ≡ vec_capacity gone.old }
{
    gone.clear();
    let _facts = copies.volumes();
    let (mut set, mut near) = (0, 0usize);
    while set < up_to {
        set = next_set(copies, set, up_to, near);
        list_set(copies, set, gone, near);
        near = near.wrapping_add(1);
    }
}

/// The least set above one that has an image; the bound where none is below that. Each volume is asked at the place `near` first.
fn next_set<D: Device>(copies: &Copies<D>, above: u32, up_to: u32, near: usize) -> u32
    requires { above < up_to }
    ensures { IsNextSet copies.now.images above up_to result }
{
    let mut next = up_to;
    for v in 0..copies.volumes() {
        next = lesser(next, first_above(copies.images(v), above, near));
    }
    next
}

/// The first of some sets, which rise, that is above one. The place `near` is tried first.
fn first_above(sets: &[u32], above: u32, near: usize) -> Option<u32>
    requires { AllPairs (λ older newer. older < newer) sets.now }
    ensures { result ≡ first_above above sets.now }
{
    if near > 0 && near < sets.len() && sets[near - 1] <= above && above < sets[near] {
        return Some(sets[near]);
    }
    let at = place_after(sets, above);
    if at == sets.len() {
        return None;
    }
    Some(sets[at])
}

/// Adds the images of a set to a list that has room for them, in order of volumes. Each volume is asked at the place `near` first.
fn list_set<D: Device>(copies: &Copies<D>, set: u32, gone: &mut Vec<Evicted>, near: usize)
    requires { length gone.old.items + length (holders set 0 copies.now.images) ≤ vec_capacity gone.old }
    ensures told { gone.new.items ≡ gone.old.items ++ evicted_of set (holders set 0 copies.now.images) }
    ensures space { vec_capacity gone.new ≡ vec_capacity gone.old }
{
    for v in 0..copies.volumes() {
        if !has_image_near(copies, v, set, near) {
            continue;
        }
        gone.push_reserved(Evicted { set, volume: v });
    }
}
