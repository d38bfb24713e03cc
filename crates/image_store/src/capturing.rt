//! The pass that reads a file while its writer stands still: what differs goes to another device, and no volume changes.

ghost use Rattle.std.specs.Prelude.{◌≡◌, ◌<◌, ◌≤◌, ℕ, List, Some, length, IfOk, OnOk};
ghost use Rattle.cow_volume.specs.Calls.{blocks_at};
ghost use Rattle.image_store.specs.Updating.{AreCaptured, HasCaptured, HasOneCaptured};
ghost use Rattle.image_store.specs.Plain.{Plain, volume_in};
ghost use Rattle.image_store.specs.StoreValue.{HasPlains, KeepsPlains};

use crate::capture_fault::CaptureFault;
use crate::pass_fault::PassFault;
use crate::piece::Piece;
use crate::updating::are_same;
use cow_volume::CowGroup;
use volume_device::Device;

/// Whether a block of the volume is another than that of the input, which is read once. Then it goes to the spool.
#[tactic(auto, using(crate::proofs::Plains::kept_refl, crate::proofs::Plains::quiet_kept))]
fn capture_one<D: Device, I: Device, S: Device>(
    group: &mut CowGroup<D>,
    piece: &mut Piece,
    wanted: &mut Piece,
    v: u32,
    b: u32,
    input: &mut I,
    spool: &mut S,
) -> Result<bool, CaptureFault>
    requires volume { v < length group.old.area.volumes }
    requires in_range { b < blocks_at group.old v }
    requires size { I.size input.old ≡ blocks_at group.old v }
    requires room { S.size spool.old ≡ blocks_at group.old v }
    ensures captured { IfOk result (λ differs. (wanted spool_old : List (List ℕ)) (ps : List Plain)
        → I.told input.old ≡ Some wanted → S.told spool.old ≡ Some spool_old
        → HasPlains D.told group.old ps
        → HasOneCaptured (S.told spool.new) differs b spool_old wanted (volume_in ps v).blocks) }
    ensures kept { KeepsPlains D.told group.old group.new }
    ensures told { I.told input.new ≡ I.told input.old }
    ensures size { I.size input.new ≡ I.size input.old }
    ensures room { S.size spool.new ≡ S.size spool.old }
{
    let _facts = spool.blocks();
    let Ok(()) = wanted.read_device(input, b) else {
        return Err(CaptureFault::Pass(PassFault::Input));
    };
    match piece.read_volume(group, v, b) {
        Ok(()) => {}
        Err(cause) => return Err(CaptureFault::Pass(PassFault::from(cause))),
    }
    if are_same(piece.bytes(), wanted.bytes()) {
        return Ok(false);
    }
    match spool.write(b, wanted.bytes()) {
        Ok(()) => Ok(true),
        Err(_) => Err(CaptureFault::Spool),
    }
}

/// Reads the blocks of the input from `from` to before `to`, each once, marks those in which the volume differs, and writes them to the spool.
#[tactic(auto, using(crate::proofs::Plains::kept_refl, crate::proofs::Plains::kept_then))]
pub fn capture_blocks<D: Device, I: Device, S: Device>(
    group: &mut CowGroup<D>,
    piece: &mut Piece,
    wanted: &mut Piece,
    v: u32,
    input: &mut I,
    spool: &mut S,
    differs: &mut [bool],
    from: u32,
    to: u32,
) -> Result<(), CaptureFault>
    requires volume { v < length group.old.area.volumes }
    requires size { I.size input.old ≡ blocks_at group.old v }
    requires room { S.size spool.old ≡ blocks_at group.old v }
    requires marks { length differs.old ≡ blocks_at group.old v }
    ensures captured { OnOk result ((wanted spool_old : List (List ℕ)) (ps : List Plain)
        → I.told input.old ≡ Some wanted → S.told spool.old ≡ Some spool_old
        → HasPlains D.told group.old ps
        → AreCaptured differs.old spool_old wanted (volume_in ps v).blocks from
        → HasCaptured (S.told spool.new) differs.new wanted (volume_in ps v).blocks to) }
    ensures kept { KeepsPlains D.told group.old group.new }
    ensures told { I.told input.new ≡ I.told input.old }
    ensures size { I.size input.new ≡ I.size input.old }
    ensures room { S.size spool.new ≡ S.size spool.old }
    ensures len { length differs.new ≡ length differs.old }
{
    for b in from..to.min(group.blocks(v)) {
        differs[b as usize] = capture_one(group, piece, wanted, v, b, input, spool)?;
    }
    Ok(())
}
