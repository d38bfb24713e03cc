//! The three passes of an update, over a group.

ghost use Rattle.std.specs.Prelude.{◌≡◌, ◌≢◌, ◌<◌, ◌≤◌, ◌+◌, ◌*◌, ℕ, List, Some, false, length, if◌then◌else◌, vec_capacity, IfErr, IfOk, IsTrue, OnErr, OnOk};
ghost use Rattle.cow_volume.specs.Calls.{DeviceRose, IsUnfailed, blocks_at, sets_at};
ghost use Rattle.cow_volume.specs.Room.{lacks_copy, lacks_slot};
ghost use Rattle.diff_area.specs.Format.{used_in};
ghost use Rattle.image_store.specs.Updating.{Gives, IsCopying, IsWriting, AreMarked, AreReady};
ghost use Rattle.image_store.specs.Copying.{AreCopied, IsAreaLeft, IsCopiedAhead, KeepsCopies};
ghost use Rattle.image_store.specs.Failing.{IsPassFault};
ghost use Rattle.image_store.specs.Plain.{Plain, volume_in};
ghost use Rattle.image_store.specs.StoreValue.{HasPlains, KeepsPlains};

use crate::pass::Pass;
use crate::pass_fault::PassFault;
use crate::piece::Piece;
use block_data::BLOCK;
use cow_volume::{Cause, CowGroup};
use volume_device::Device;
use write_history::Evicted;

/// Whether two blocks are the same. All bytes are gone over, without an end at the first that differs, so that many are compared at once:
/// this takes a third of the time of `==`.
pub fn are_same(a: &[u8], b: &[u8]) -> bool
    requires whole { length a.now ≡ BLOCK }
    requires other { length b.now ≡ BLOCK }
    ensures same { IsTrue result → a.now ≡ b.now }
    ensures differ { result ≡ false → a.now ≢ b.now }
{
    let mut same = true;
    for at in 0..BLOCK {
        same &= a[at] == b[at];
    }
    same
}

/// Marks the blocks in which a volume and another device differ.
pub fn compare_blocks<D: Device, I: Device>(
    group: &mut CowGroup<D>,
    piece: &mut Piece,
    wanted: &mut Piece,
    v: u32,
    input: &mut I,
    differs: &mut [bool],
) -> Result<(), PassFault>
    requires volume { v < length group.old.area.volumes }
    requires sizes { I.size input.old ≡ blocks_at group.old v }
    requires marks { length differs.old ≡ blocks_at group.old v }
    ensures marked { OnOk result ((wanted : List (List ℕ)) (ps : List Plain) → I.told input.old ≡ Some wanted → HasPlains D.told group.old ps
        → AreMarked differs.new wanted (volume_in ps v).blocks) }
    ensures failed { IfErr result (IsPassFault D.count v group.old group.new (I.count input.old) (I.count input.new)) }
    ensures kept { KeepsPlains D.told group.old group.new }
    ensures told { I.told input.new ≡ I.told input.old }
    ensures size { I.size input.new ≡ I.size input.old }
    ensures len { length differs.new ≡ length differs.old }
{
    let _facts = input.blocks();
    for b in 0..group.blocks(v) {
        let Ok(()) = wanted.read_device(input, b) else {
            return Err(PassFault::Input);
        };
        piece.read_volume(group, v, b)?;
        differs[b as usize] = !are_same(piece.bytes(), wanted.bytes());
    }
    Ok(())
}

/// Puts a block's own bytes, so that they are copied where they have to be. Whether they were is answered.
fn copy_one<D: Device>(
    group: &mut CowGroup<D>,
    piece: &mut Piece,
    v: u32,
    b: u32,
) -> Result<bool, Cause>
    requires volume { v < length group.old.area.volumes }
    requires in_range { b < blocks_at group.old v }
    requires room { lacks_slot group.old.area.records v (sets_at group.old v) b ≡ false }
    ensures kept { KeepsPlains D.told group.old group.new }
    ensures copies { KeepsCopies D.told group.old group.new }
    ensures has { OnOk result (lacks_copy group.new.area.records v (sets_at group.new v) b ≡ false) }
    ensures more { IfOk result (λ copied. used_in group.new.area.records ≡ used_in group.old.area.records + (if copied then 1 else 0)) }
    ensures none { OnErr result (group.new.area.records ≡ group.old.area.records) }
    ensures same { OnOk result (IsUnfailed D.count group.old group.new) }
    ensures failed { IfErr result (DeviceRose D.count v group.old group.new) }
{
    let _facts = group.images(v);
    let before = group.used_all();
    piece.read_volume(group, v, b)?;
    group.put(v, b, piece.payload())?;
    Ok(group.used_all() > before)
}

/// The second pass, or a part of it: the old bytes of the marked blocks from `from` to before `to` are copied. How many were is added to
/// `copied`.
pub fn copy_blocks<D: Device>(
    group: &mut CowGroup<D>,
    piece: &mut Piece,
    v: u32,
    differs: &[bool],
    from: u32,
    to: u32,
    copied: &mut u32,
    gone: &mut Vec<Evicted>,
) -> Result<Pass, Cause>
    requires volume { v < length group.old.area.volumes }
    requires marks { length differs.now ≡ blocks_at group.old v }
    requires space { 512 * length group.old.area.volumes ≤ vec_capacity gone.old }
    ensures volumes { group.new.area.volumes ≡ group.old.area.volumes }
    ensures failed { IfErr result (DeviceRose D.count v group.old group.new) }
    ensures copying { (ps : List Plain) → HasPlains D.told group.old ps → IsCopying D.told group.new ps gone.new.items result }
    ensures copied { IsCopiedAhead D.told group.old group.new v differs.now from to copied.old copied.new result }
    ensures space { vec_capacity gone.new ≡ vec_capacity gone.old }
{
    let _range = *copied;
    if group.images(v).is_empty() {
        return Ok(Pass::Done);
    }
    for b in from..to.min(group.blocks(v)) {
        if differs[b as usize] {
            let up_to = group.make_room(v, b, gone);
            if up_to > 0 {
                return Ok(Pass::Evicted { at: b, up_to });
            }
            let more = copy_one(group, piece, v, b)?;
            *copied = copied.saturating_add(u32::from(more));
        }
    }
    Ok(Pass::Done)
}

/// The third pass: the marked blocks are put as the other device has them.
pub fn overwrite_blocks<D: Device, I: Device>(
    group: &mut CowGroup<D>,
    wanted: &mut Piece,
    v: u32,
    input: &mut I,
    differs: &[bool],
    from: u32,
    gone: &mut Vec<Evicted>,
) -> Result<Pass, PassFault>
    requires volume { v < length group.old.area.volumes }
    requires sizes { I.size input.old ≡ blocks_at group.old v }
    requires marks { length differs.now ≡ blocks_at group.old v }
    requires space { 512 * length group.old.area.volumes ≤ vec_capacity gone.old }
    ensures volumes { group.new.area.volumes ≡ group.old.area.volumes }
    ensures failed { IfErr result (IsPassFault D.count v group.old group.new (I.count input.old) (I.count input.new)) }
    ensures writing { (wanted : List (List ℕ)) (ps : List Plain) → Gives (I.told input.old) differs.now wanted → HasPlains D.told group.old ps
        → AreReady differs.now wanted (volume_in ps v).blocks from → IsWriting D.told group.new ps v differs.now wanted gone.new.items result }
    ensures area { AreCopied group.old v differs.now from (blocks_at group.old v) → IsAreaLeft D.told group.old group.new result }
    ensures told { I.told input.new ≡ I.told input.old }
    ensures size { I.size input.new ≡ I.size input.old }
    ensures space { vec_capacity gone.new ≡ vec_capacity gone.old }
{
    for b in from..group.blocks(v) {
        if differs[b as usize] {
            let up_to = group.make_room(v, b, gone);
            if up_to > 0 {
                return Ok(Pass::Evicted { at: b, up_to });
            }
            let Ok(()) = wanted.read_device(input, b) else {
                return Err(PassFault::Input);
            };
            group.put(v, b, wanted.payload())?;
        }
    }
    Ok(Pass::Done)
}
