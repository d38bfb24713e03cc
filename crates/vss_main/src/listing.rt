ghost use Rattle.std.specs.Prelude.{◌≡◌, ◌+◌, ◌≤◌, ◌++◌, length, IfOk, IfErr, OnOk, IsErrOf};
ghost use Rattle.block_data.specs.declared.block_buf.TheConstants.{BLOCK};
ghost use Rattle.diff_area.specs.Format.{stated_used, header_of, records_of, IsArea, used_in};
ghost use Rattle.diff_area.specs.Refusals.{IsRefused};
ghost use Rattle.vss_main.specs.Inspected.{listing};

use crate::lines::{add_head, add_slots, add_volumes, number_at};
use block_data::BLOCK;
use diff_area::{AreaFault, AreaView};
use std::alloc::Global;
use vss_names::{OutOfMemory, Text};

/// The most bytes of the first line and the last.
const HEAD_BYTES: usize = 64;

/// The most bytes of the line of a volume.
const VOLUME_BYTES: usize = 36;

/// The most bytes of the line of a slot.
const SLOT_BYTES: usize = 131;

/// The header of an area, which is its first block.
#[tactic(auto, unfolding(diff_area::specs::Format::part))]
fn header_of(bytes: &[u8]) -> &[u8]
    requires { BLOCK ≤ length bytes.now }
    ensures header { result.now ≡ header_of bytes.now }
    ensures len { length result.now ≡ BLOCK }
{
    &bytes[..BLOCK]
}

/// How many slots are used.
#[tactic(auto, using(crate::proofs::Listed::has_header))]
fn used_in(bytes: &[u8]) -> u32
    requires { IsArea bytes.now }
    ensures { result ≡ used_in (records_of bytes.now) }
{
    number_at(header_of(bytes), 16)
}

/// The listing of an area whose format was checked. Memory is taken once, for all lines.
fn listing_of(alloc: Global, view: &AreaView<'_>, used: u32) -> Result<Text, OutOfMemory>
    requires { used ≡ used_in (records_of view.now) }
    ensures { IfOk result (λ text. text.bytes ≡ listing view.now) }
{
    let mut out = Text::new(alloc);
    out.reserve(HEAD_BYTES + VOLUME_BYTES * view.volumes() as usize + SLOT_BYTES * used as usize)?;
    add_head(view.layout(), view.slots(), used, &mut out)?;
    add_volumes(view, &mut out)?;
    add_slots(view, &mut out)?;
    out.add(b"end\n")?;
    Ok(out)
}

/// The listing of the area that these bytes are, in either layout. Each block that is used is digested once, where it stands.
/// Bytes that are no area have the first refusal of their format. Memory is taken for the listing, and as `AreaView::new` says.
#[tactic(auto, using(crate::proofs::Listed::only_memory))]
pub fn list_area(alloc: Global, bytes: &[u8]) -> Result<Text, AreaFault>
    ensures listed { IfOk result (λ text. text.bytes ≡ listing bytes.now) }
    ensures area { OnOk result (IsArea bytes.now) }
    ensures refused { IfErr result (IsRefused bytes.now) }
    ensures cause { IsErrOf result AreaFault.Device → ⊥ }
    ensures exact { IsArea bytes.now → IfErr result (λ fault. fault ≡ AreaFault.OutOfMemory) }
{
    let view = match AreaView::new(alloc, bytes) {
        Ok(view) => view,
        Err(fault) => return Err(fault),
    };
    let _slots = view.slots();
    match listing_of(alloc, &view, used_in(bytes)) {
        Ok(text) => Ok(text),
        Err(OutOfMemory) => Err(AreaFault::OutOfMemory),
    }
}
