//! The file that a volume or an image has, to its length.

ghost use Rattle.std.specs.Prelude.{◌≡◌, ◌≤◌, ◌⊎◌, ◌<◌, List, length, IfOk, IfErr, OnOk};
ghost use Rattle.vss_names.specs.Faults.{Rose};
ghost use Rattle.cow_volume.specs.Calls.{IsUnfailed, blocks_at};
ghost use Rattle.image_store.specs.Failing.{IsShowFault};
ghost use Rattle.image_store.specs.Plain.{Plain};
ghost use Rattle.image_store.specs.Showing.{HasBlock, HasLength, HasReadCause, HasShowCause, IfBad, IsSeen, IsShow, shown_in};
ghost use Rattle.image_store.specs.StoreValue.{HasPlains, KeepsPlains};

use crate::bytes::length_said;
use crate::piece::Piece;
use crate::show_fault::ShowFault;
use crate::which::Which;
use block_data::BLOCK;
use cow_volume::{Cause, CowGroup, ImageFault};
use io_edge::{Sink, write_all};
use volume_device::Device;

/// Reads a block of what is shown.
fn read_which<D: Device>(
    group: &mut CowGroup<D>,
    v: u32,
    which: Which,
    b: u32,
    piece: &mut Piece,
) -> Result<(), ShowFault>
    requires volume { v < length group.old.area.volumes }
    requires in_range { b < blocks_at group.old v }
    ensures read { OnOk result ((ps : List Plain) → HasPlains D.told group.old ps → HasBlock (shown_in ps v which) (blocks_at group.old v) b piece.new) }
    ensures kept { KeepsPlains D.told group.old group.new }
    ensures images { group.new.images ≡ group.old.images }
    ensures seen { OnOk result (IsSeen group.old v which) }
    ensures cause { IfErr result (HasReadCause group.old v which) }
    ensures same { OnOk result (IsUnfailed D.count group.old group.new) }
    ensures failed { IfErr result (IsShowFault D.count v group.old group.new) }
{
    match which {
        Which::Now => match piece.read_volume(group, v, b) {
            Ok(()) => Ok(()),
            Err(Cause::Area) => Err(ShowFault::Area),
            Err(_) => Err(ShowFault::Volume),
        },
        Which::Of(set) => match piece.read_image(group, v, set, b) {
            Ok(()) => Ok(()),
            Err(ImageFault::NoSuchImage) => Err(ShowFault::NoSuchImage),
            Err(ImageFault::Area) => Err(ShowFault::Area),
            Err(_) => Err(ShowFault::Volume),
        },
    }
}

/// The length in bytes of the file that is shown.
pub fn length_of<D: Device>(
    group: &mut CowGroup<D>,
    piece: &mut Piece,
    v: u32,
    which: Which,
) -> Result<u64, ShowFault>
    requires { v < length group.old.area.volumes }
    ensures length { IfOk result (λ n. (ps : List Plain) → HasPlains D.told group.old ps → HasLength (shown_in ps v which) (blocks_at group.old v) n) }
    ensures seen { OnOk result (IsSeen group.old v which) }
    ensures bad { IfErr result (λ fault. (ps : List Plain) → HasPlains D.told group.old ps → IfBad (shown_in ps v which) fault) }
    ensures cause { IfErr result (HasShowCause group.old v which ⊥) }
    ensures same { OnOk result (IsUnfailed D.count group.old group.new) }
    ensures failed { IfErr result (IsShowFault D.count v group.old group.new) }
    ensures kept { KeepsPlains D.told group.old group.new }
    ensures images { group.new.images ≡ group.old.images }
{
    let _facts = group.volumes();
    let blocks = group.blocks(v);
    read_which(group, v, which, blocks - 1, piece)?;
    match length_said(piece.bytes(), blocks) {
        Ok(length) => Ok(length),
        Err(found) => Err(ShowFault::BadLength { found }),
    }
}

/// How many bytes of a block are shown, where so many are left.
fn part_of(left: u64) -> u64
    ensures most { result ≤ BLOCK }
    ensures within { result ≤ left }
    ensures part { (result ≡ BLOCK) ⊎ (result ≡ left) }
{
    if left > BLOCK as u64 {
        return BLOCK as u64;
    }
    left
}

/// Writes the file. Its length is read first, of the last block.
pub fn show_blocks<D: Device, K: Sink>(
    group: &mut CowGroup<D>,
    piece: &mut Piece,
    v: u32,
    which: Which,
    sink: &mut K,
) -> Result<(), ShowFault>
    requires { v < length group.old.area.volumes }
    ensures seen { OnOk result (IsSeen group.old v which) }
    ensures images { group.new.images ≡ group.old.images }
    ensures show { (ps : List Plain) → HasPlains D.told group.old ps → IsShow (shown_in ps v which) (K.taken sink.old) (K.taken sink.new) result }
    ensures cause { IfErr result (HasShowCause group.old v which (Rose (K.count sink.old) (K.count sink.new))) }
    ensures failed { IfErr result (IsShowFault D.count v group.old group.new) }
    ensures kept { KeepsPlains D.told group.old group.new }
{
    let mut left = length_of(group, piece, v, which)?;
    for b in 0..group.blocks(v) {
        if left == 0 {
            break;
        }
        read_which(group, v, which, b, piece)?;
        let more = part_of(left);
        let Ok(()) = write_all(sink, &piece.bytes()[..more as usize]) else {
            return Err(ShowFault::Sink);
        };
        left -= more;
    }
    Ok(())
}
