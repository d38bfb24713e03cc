//! Calls on the device of one volume of a group.

ghost use Rattle.std.specs.Prelude.{◌≡◌, ◌<◌, true, Some, slice_get, length, is_some, is_err, IfSome};
ghost use Rattle.cow_volume.specs.Parts.{size_at, IsRead, IsPut, IsFlushed};

use block_data::BLOCK;
use volume_device::Device;
use vss_names::Failed;

/// Reads a block of a volume's device into `out`, which after a failed read holds any bytes.
pub(crate) fn read_device<D: Device>(
    devices: &mut Vec<D>,
    v: u32,
    block: u32,
    out: &mut [u8],
) -> Result<(), Failed>
    requires in_range { block < size_at D.size devices.old.items v }
    requires whole { length out.old ≡ BLOCK }
    ensures { IsRead D.Device v block out.new devices.old.items devices.new.items (is_err result) }
{
    devices[v as usize].read_into(block, out)
}

/// Writes a block to a volume's device. After a failed write the block is as before.
pub(crate) fn write_device<D: Device>(
    devices: &mut Vec<D>,
    v: u32,
    block: u32,
    bytes: &[u8],
) -> Result<(), Failed>
    requires in_range { block < size_at D.size devices.old.items v }
    requires whole { length bytes.now ≡ BLOCK }
    ensures { IsPut D.Device v block bytes.now devices.old.items devices.new.items (is_err result) }
{
    devices[v as usize].write(block, bytes)
}

/// Brings all accepted writes of a volume's device to where they last.
pub(crate) fn flush_device<D: Device>(devices: &mut Vec<D>, v: u32) -> Result<(), Failed>
    requires { v < length devices.old.items }
    ensures { IsFlushed D.Device v devices.old.items devices.new.items (is_err result) }
{
    devices[v as usize].flush()
}

/// Lends a block of a volume's device in place, which cannot fail.
pub(crate) fn lend_device<D: Device>(devices: &Vec<D>, v: u32, block: u32) -> Option<&[u8]>
    requires { block < size_at D.size devices.now.items v }
    ensures lends { (d : D) → slice_get devices.now.items v ≡ Some d → is_some result ≡ D.lending d }
    ensures block { (d : D) → slice_get devices.now.items v ≡ Some d → IfSome result (λ lent. IfSome (D.told d) (λ blocks. slice_get blocks block ≡ Some lent.now)) }
    ensures whole { IfSome result (λ lent. length lent.now ≡ BLOCK) }
{
    devices[v as usize].lend(block)
}

/// Fills `out` with a block of a volume's device, while other threads may read too. False if that cannot be, or failed.
pub(crate) fn read_device_shared<D: Device>(
    devices: &Vec<D>,
    v: u32,
    block: u32,
    out: &mut [u8],
) -> bool
    requires in_range { block < size_at D.size devices.now.items v }
    requires whole { length out.old ≡ BLOCK }
    ensures { result ≡ true → (d : D) → slice_get devices.now.items v ≡ Some d → IfSome (D.told d) (λ blocks. slice_get blocks block ≡ Some out.new) }
{
    devices[v as usize].read_shared(block, out)
}
