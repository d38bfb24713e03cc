//! What holds of every list of calls on a store, and of one that is closed and opened again: functions that do nothing, or make just
//! the calls of which they speak, and whose contracts are the laws.

ghost use Rattle.std.specs.Prelude.{◌≡◌, ◌<◌, ◌≤◌, ◌*◌, ℕ, List, [], ◌∷◌, Some, length, map, true, vec_capacity, IfOk, OnOk};
ghost use Rattle.cow_volume.specs.Calls.{blocks_at};
ghost use Rattle.image_store.specs.Course.{AreTaken, CallsFollowOneAnother, FilesComeBack, ImagesAreOfTheirCut, ImagesComeOfCuts, IsShowStep, SetsAreCutOnce, ShownIsOfItsCut};
ghost use Rattle.image_store.specs.Head.{bytes_of_head, head_of, said_of, IsKeptAs};
ghost use Rattle.image_store.specs.Plain.{PlainStore};
ghost use Rattle.image_store.specs.PowerLoss.{WhatIsUnderWayIsFound};
ghost use Rattle.image_store.specs.Steps.{after};
ghost use Rattle.image_store.specs.Steps.Step.{Opened, Updated};
ghost use Rattle.image_store.specs.StoreValue.{StandsAs};

use crate::closed::Closed;
use crate::head::Head;
use crate::pass::Pass;
use crate::refused::Refused;
use crate::show_fault::ShowFault;
use crate::store::Store;
use crate::which::Which;
use io_edge::Sink;
use std::alloc::Global;
use volume_device::Device;
use write_history::Evicted;

/// An image that was cut has, until it is deleted, its volume is reverted past it, or it is reported as evicted, the blocks that its
/// volume had at that cut.
pub fn images_are_of_their_cut()
    ensures { ImagesAreOfTheirCut }
{}

/// An image that stands was there at first, or it has the blocks that its volume had at its set's cut, which is one of the calls.
pub fn images_come_of_cuts()
    ensures { ImagesComeOfCuts }
{}

/// What is shown of an image is the file that its volume had at its set's cut, which is one of the calls before.
pub fn shown_is_of_its_cut()
    ensures { ShownIsOfItsCut }
{}

/// Of each set there is one cut.
pub fn sets_are_cut_once()
    ensures { SetsAreCutOnce }
{}

/// A file that a volume holds at a cut, and that is shown of the image later, comes back byte for byte, whatever is done between.
pub fn files_come_back()
    ensures { FilesComeBack }
{}

/// Calls that follow one another take one list of steps, to which the laws above apply.
pub fn calls_follow_one_another<D: Device>()
    ensures { CallsFollowOneAnother D.told }
{}

/// A `show` that is answered Ok takes the step `Shown` of an image, or `Read` of a volume as it is, with the bytes that the sink took.
pub fn a_show_is_a_step<D: Device, K: Sink>(
    store: &mut Store<D>,
    v: u32,
    which: Which,
    sink: &mut K,
) -> Result<(), ShowFault>
    requires { v < length store.old.group.area.volumes }
    ensures { OnOk result (IsShowStep D.told store.old store.new v which (K.taken sink.old)
        (K.taken sink.new)) }
{
    store.show(v, which, sink)
}

/// What lasts of a store that was closed (`Store::close`) is what the next opening takes up (`Store::open`): devices that tell what lasted
/// of the old ones, with the head that was read of the store's bytes, are kept for the same whole copies.
pub fn what_lasts_is_found<D: Device>(store: &Store<D>, head: &Head)
    requires { bytes_of_head head.now ≡ head_of store.now }
    ensures { (devices later : List D) (area again : D) (p : PlainStore) → IsKeptAs D.lasting devices area (said_of store.now) p
        → map D.told later ≡ map D.lasting devices → D.told again ≡ D.lasting area → IsKeptAs D.told later again head.now p }
{
    store.has_a_head();
    let _given = store.last();
    let _catalog = head.catalog();
    let _last = head.last();
}

/// A `close` that is answered Ok, and an `open` of its head and of devices that tell what lasts of those that it gave back, take the step
/// `Opened`.
pub fn what_is_closed_is_opened<D: Device>(
    alloc: Global,
    store: Store<D>,
    head: &Head,
    later: Vec<D>,
    again: D,
) -> (Closed<D>, Result<Store<D>, Refused<D>>)
    requires { bytes_of_head head.now ≡ head_of store }
    ensures { OnOk result.0.outcome (IfOk result.1 (λ new.
        map D.told later.items ≡ map D.lasting result.0.devices.items
        → D.told again ≡ D.lasting result.0.area
        → (p : PlainStore) → StandsAs D.told store p → AreTaken D.told p (Opened ∷ []) new)) }
{
    what_lasts_is_found(&store, head);
    let closed = store.close();
    (closed, Store::open(alloc, later, again, head))
}

/// At every moment between two calls of an update, what is found after a loss of power is what was committed: whatever lasted of the blocks
/// that were written since, the committed head opens to the same images (`Store::copy_ahead`, `Store::sync`, `Store::overwrite`).
pub fn what_is_under_way_is_found<D: Device>()
    ensures { WhatIsUnderWayIsFound D.told }
{}

/// What a capture read of a file is what its volume has once it took the spool: of a file that tells its blocks as they are read, a capture
/// of all of it, a pass of copying and an overwrite from the spool make of the volume, block for block, what the file told. True if all
/// three were done.
pub fn captured_is_kept<D: Device, I: Device, S: Device>(
    store: &mut Store<D>,
    v: u32,
    input: &mut I,
    spool: &mut S,
    differs: &mut [bool],
    gone: &mut Vec<Evicted>,
) -> bool
    requires volume { v < length store.old.group.area.volumes }
    requires size { I.size input.old ≡ blocks_at store.old.group v }
    requires room { S.size spool.old ≡ blocks_at store.old.group v }
    requires marks { length differs.old ≡ blocks_at store.old.group v }
    requires space { 512 * length store.old.group.area.volumes ≤ vec_capacity gone.old }
    ensures { result ≡ true → (wanted spool_old : List (List ℕ)) (p : PlainStore)
        → I.told input.old ≡ Some wanted → S.told spool.old ≡ Some spool_old → StandsAs D.told store.old p
        → StandsAs D.told store.new (after p (Updated v wanted)) }
{
    let blocks = input.blocks();
    let Ok(()) = store.capture(v, input, spool, differs, 0, blocks) else {
        return false;
    };
    let mut copied = 0;
    let Ok(ahead) = store.copy_ahead(v, differs, 0, blocks, &mut copied, gone) else {
        return false;
    };
    let Pass::Done = ahead else {
        return false;
    };
    let Ok(taken) = store.overwrite(v, spool, differs, 0, gone) else {
        return false;
    };
    let Pass::Done = taken else {
        return false;
    };
    true
}
