//! Reads of a volume as it is, and as an image shows it.

ghost use Rattle.std.specs.Prelude.{◌≡◌, ◌<◌, ◌≤◌, ◌↔◌, true, length, map, is_some, is_err, IfOk, IfErr, IfSome, OnOk, IsNone};
ghost use Rattle.cow_volume.specs.Changes.{IsInSlot, IsInVolume};
ghost use Rattle.cow_volume.specs.Calls.{HasImageCause, IsSeen, IsQuiet, IsUnfailed, is_among, is_there};
ghost use Rattle.cow_volume.specs.CopiesAfter.{images_on};
ghost use Rattle.cow_volume.specs.Parts.{group_of, blocks_on, IsUnseen, IsLentBy};

use crate::calling::{lend_device, read_device, read_device_shared};
use crate::copies::Copies;
use crate::image_fault::ImageFault;
use block_data::BLOCK;
use diff_map::place_from;
use volume_device::Device;

/// Whether an image of a set stands on a volume.
pub(crate) fn has_image<D: Device>(copies: &Copies<D>, v: u32, set: u32) -> bool
    requires { v < length copies.now.area.volumes }
    ensures among { result ≡ is_among set (images_on copies.now v) }
    ensures above { result ≡ true → 0 < set }
{
    let sets = copies.images(v);
    let at = place_from(sets, set);
    if at == sets.len() {
        return false;
    }
    sets[at] == set
}

/// The same, where the place `near` among the volume's images is tried first.
pub(crate) fn has_image_near<D: Device>(copies: &Copies<D>, v: u32, set: u32, near: usize) -> bool
    requires { v < length copies.now.area.volumes }
    ensures { result ≡ is_among set (images_on copies.now v) }
{
    let sets = copies.images(v);
    (near < sets.len() && sets[near] == set) || has_image(copies, v, set)
}

/// Where a block stands of a volume as it is, or as the image of a set shows it: the slot of its copy; None where the volume
/// itself has it.
fn find<D: Device>(
    copies: &Copies<D>,
    v: u32,
    set: Option<u32>,
    block: u32,
) -> Result<Option<u32>, ImageFault>
    requires volume { v < length copies.now.area.volumes }
    ensures found { IfOk result (λ place. IfSome place (IsInSlot copies.now.area.records v set block)) }
    ensures within { IfOk result (λ place. IfSome place (λ slot. slot < length copies.now.area.records)) }
    ensures none { IfOk result (λ place. IsNone place → IsInVolume copies.now.area.records v set block) }
    ensures there { OnOk result (is_there set (images_on copies.now v) ≡ true) }
    ensures in_range { OnOk result (block < blocks_on copies.now v) }
    ensures unseen { IfErr result (IsUnseen (images_on copies.now v) (blocks_on copies.now v) set block) }
{
    let Some(set) = set else {
        if block >= copies.blocks(v) {
            return Err(ImageFault::NoSuchBlock);
        }
        return Ok(None);
    };
    if !has_image(copies, v, set) {
        return Err(ImageFault::NoSuchImage);
    }
    if block >= copies.blocks(v) {
        return Err(ImageFault::NoSuchBlock);
    }
    Ok(copies.find(v, set, block))
}

/// Reads a block into `out` as it is, or as the image of a set shows it. After a failed read `out` holds any bytes.
pub(crate) fn read<D: Device>(
    devices: &mut Vec<D>,
    copies: &mut Copies<D>,
    v: u32,
    set: Option<u32>,
    block: u32,
    out: &mut [u8],
) -> Result<(), ImageFault>
    requires volume { v < length copies.old.area.volumes }
    requires devices { map D.size devices.old.items ≡ copies.old.area.volumes }
    requires whole { length out.old ≡ BLOCK }
    ensures cause { IfErr result (HasImageCause D.count v set block (group_of devices.old.items copies.old) (group_of devices.new.items copies.new)) }
    ensures seen { OnOk result (IsSeen D.told (group_of devices.old.items copies.old) v set block out.new) }
    ensures there { OnOk result (is_there set (images_on copies.old v) ≡ true) }
    ensures in_range { OnOk result (block < blocks_on copies.old v) }
    ensures same { OnOk result (IsUnfailed D.count (group_of devices.old.items copies.old) (group_of devices.new.items copies.new)) }
    ensures quiet { IsQuiet D.Device (group_of devices.old.items copies.old) (group_of devices.new.items copies.new) }
{
    match find(copies, v, set, block)? {
        Some(slot) => match copies.read_slot(slot, out) {
            Ok(()) => Ok(()),
            Err(_) => Err(ImageFault::Area),
        },
        None => match read_device(devices, v, block, out) {
            Ok(()) => Ok(()),
            Err(_) => Err(ImageFault::Volume),
        },
    }
}

/// Lends a block as it is, or as the image of a set shows it. None where the device that has it does not lend.
pub(crate) fn lend<'a, D: Device>(
    devices: &'a Vec<D>,
    copies: &'a Copies<D>,
    v: u32,
    set: Option<u32>,
    block: u32,
) -> Result<Option<&'a [u8]>, ImageFault>
    requires volume { v < length copies.now.area.volumes }
    requires devices { map D.size devices.now.items ≡ copies.now.area.volumes }
    ensures seen { IfOk result (λ lent. IfSome lent (λ bytes. IsSeen D.told (group_of devices.now.items copies.now) v set block bytes.now)) }
    ensures whole { IfOk result (λ lent. IfSome lent (λ bytes. length bytes.now ≡ BLOCK)) }
    ensures there { OnOk result (is_there set (images_on copies.now v) ≡ true) }
    ensures in_range { OnOk result (block < blocks_on copies.now v) }
    ensures lends { IfOk result (λ lent. IsLentBy D.lending (group_of devices.now.items copies.now) v set block (is_some lent)) }
    ensures unseen { IfErr result (IsUnseen (images_on copies.now v) (blocks_on copies.now v) set block) }
{
    match find(copies, v, set, block)? {
        Some(slot) => Ok(copies.lend_slot(slot)),
        None => Ok(lend_device(devices, v, block)),
    }
}

/// Fills `out` with a block as it is, or as the image of a set shows it, while other threads may read too. False if that
/// cannot be, or failed, or there is no such image.
pub(crate) fn read_shared<D: Device>(
    devices: &Vec<D>,
    copies: &Copies<D>,
    v: u32,
    set: Option<u32>,
    block: u32,
    out: &mut [u8],
) -> bool
    requires volume { v < length copies.now.area.volumes }
    requires devices { map D.size devices.now.items ≡ copies.now.area.volumes }
    requires in_range { block < blocks_on copies.now v }
    requires whole { length out.old ≡ BLOCK }
    ensures { result ≡ true → IsSeen D.told (group_of devices.now.items copies.now) v set block out.new }
{
    match find(copies, v, set, block) {
        Ok(Some(slot)) => copies.read_slot_shared(slot, out),
        Ok(None) => read_device_shared(devices, v, block, out),
        Err(_) => false,
    }
}
