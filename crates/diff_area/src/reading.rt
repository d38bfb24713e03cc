//! The header and the table, read from a device.

ghost use Rattle.std.specs.Prelude.{◌≡◌, ◌<◌, ◌≤◌, ◌+◌, ◌*◌, ◌^◌, length, slice_get, Some, vec_len, IfOk, IfErr, IfSome, OnOk};
ghost use Rattle.vss_names.specs.Faults.{HasCause};
ghost use Rattle.diff_area.specs.Loading.{IsReadAlone, AreRead, IsReadFault};

use crate::area_fault::AreaFault;
use block_data::BLOCK;
use std::alloc::{AllocError, Global};
use volume_device::Device;
use vss_names::Failed;

/// Reads a block into `page`.
fn read_page<D: Device>(device: &mut D, index: u32, page: &mut Vec<u8>) -> Result<(), Failed>
    requires in_range { index < D.size device.old }
    requires whole { vec_len page.old ≡ BLOCK }
    ensures block { OnOk result (IfSome (D.told device.old) (λ blocks. slice_get blocks index ≡ Some page.new.items)) }
    ensures alone { IsReadAlone D.Device device.old device.new }
    ensures len { vec_len page.new ≡ BLOCK }
    ensures cause { HasCause (D.count device.old) (D.count device.new) result }
{
    device.read_into(index, page)
}

/// Reads so many blocks, one after another.
pub fn read_blocks<D: Device>(
    alloc: Global,
    device: &mut D,
    first: u32,
    count: u32,
) -> Result<Vec<u8>, AreaFault>
    requires in_range { first + count ≤ D.size device.old }
    requires narrow { first + count < 2 ^ 32 }
    ensures read { IfOk result (λ bytes. AreRead (D.told device.old) first count bytes.items) }
    ensures len { IfOk result (λ bytes. length bytes.items ≡ BLOCK * count) }
    ensures alone { IsReadAlone D.Device device.old device.new }
    ensures same { OnOk result (D.count device.new ≡ D.count device.old) }
    ensures fault { IfErr result (IsReadFault (D.count device.old) (D.count device.new)) }
{
    let Ok(mut page) = zero_page(alloc, BLOCK) else {
        return Err(AreaFault::OutOfMemory);
    };
    let mut bytes = Vec::new(alloc);
    for k in 0..count {
        match read_page(device, first + k, &mut page) {
            Err(Failed) => return Err(AreaFault::Device),
            Ok(()) => {}
        }
        match bytes.extend_from_slice(&page) {
            Err(AllocError) => return Err(AreaFault::OutOfMemory),
            Ok(()) => {}
        }
    }
    Ok(bytes)
}

/// So many bytes that are zero.
fn zero_page(alloc: Global, len: usize) -> Result<Vec<u8>, AllocError>
    ensures { IfOk result (λ page. vec_len page ≡ len) }
{
    vec![in alloc; 0; len]
}
