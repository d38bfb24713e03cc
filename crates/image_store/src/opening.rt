//! What is compared before devices and an area are taken up as a store.

ghost use Rattle.std.specs.Prelude.{◌≡◌, ◌<◌, ℕ, false, length, map, slice_get, All, IfErr, IfOk, IsTrue, OnOk};
ghost use Rattle.vss_catalog.specs.Entries.{IsCatalog, EntryValue, lists_of};
ghost use Rattle.diff_map.specs.Copies.{AreImages};
ghost use Rattle.vss_names.specs.Names.{TextValue};
ghost use Rattle.image_store.specs.Opening.{AreWell, IsEntryFault, IsHeadFor, IsNameNew, IsNoHeadFor, IsPartsFault, names_of};

use crate::cutting::newest_of;
use crate::head::Head;
use crate::open_fault::OpenFault;
use crate::piece::Piece;
use diff_area::Area;
use std::alloc::Global;
use volume_device::Device;
use vss_catalog::Catalog;
use vss_names::{Numbers, OutOfMemory, Text};

/// Whether volume `v` has the name of an earlier one.
fn is_double(catalog: &Catalog, v: u32) -> bool
    requires { v < length catalog.now }
    ensures yes { IsTrue result → (u : ℕ) × (u < v) × (slice_get (names_of catalog.now) u ≡ slice_get (names_of catalog.now) v) }
    ensures no { result ≡ false → IsNameNew catalog.now v }
{
    let name = catalog.name(v).bytes();
    for earlier in 0..v {
        if catalog.name(earlier).bytes() == name {
            return true;
        }
    }
    false
}

/// The first volume whose name or newest image is not as it has to be.
fn check_catalog(catalog: &Catalog, last: u32) -> Result<(), OpenFault>
    requires { IsCatalog catalog.now }
    ensures well { OnOk result (AreWell last catalog.now (length catalog.now)) }
    ensures refused { IfErr result (IsEntryFault last catalog.now) }
{
    for volume in 0..catalog.volumes() {
        if is_double(catalog, volume) {
            return Err(OpenFault::DoubleName { volume });
        }
        let set = newest_of(catalog.images(volume));
        if set > last {
            return Err(OpenFault::Set { volume, set });
        }
    }
    Ok(())
}

/// What has to hold of a head and the devices before the area is read.
pub fn check_devices<D: Device>(head: &Head, devices: &[D]) -> Result<(), OpenFault>
    ensures head { OnOk result (IsHeadFor devices.now head.now) }
    ensures refused { IfErr result (IsNoHeadFor devices.now head.now) }
{
    if devices.len() != head.catalog().volumes() as usize {
        return Err(OpenFault::Devices {
            found: devices.len() as u64,
        });
    }
    check_catalog(head.catalog(), head.last())
}

/// Whether the area and the devices have the blocks of the catalog.
pub fn check_blocks<D: Device>(
    catalog: &Catalog,
    devices: &[D],
    area: &Area<D>,
) -> Result<(), OpenFault>
    requires { length devices.now ≡ length catalog.now }
    ensures volumes { OnOk result (area.now.volumes ≡ map (λ (e : EntryValue). e.blocks) catalog.now) }
    ensures fits { OnOk result (map D.size devices.now ≡ area.now.volumes) }
    ensures refused { IfErr result (IsPartsFault D.size devices.now area.now catalog.now) }
{
    let found = area.volumes();
    if found != catalog.volumes() {
        return Err(OpenFault::Volumes { found });
    }
    for volume in 0..found {
        let wanted = catalog.blocks(volume);
        let found = area.blocks(volume);
        if found != wanted {
            return Err(OpenFault::Blocks { volume, found });
        }
        let found = devices[volume as usize].blocks();
        if found != wanted {
            return Err(OpenFault::Blocks { volume, found });
        }
    }
    Ok(())
}

/// The names of the volumes of a catalog.
fn names_of(alloc: Global, catalog: &Catalog) -> Result<Vec<Text>, OutOfMemory>
    ensures { IfOk result (λ names. map (λ (name : TextValue). name.bytes) names.items ≡ names_of catalog.now) }
{
    let mut names = Vec::with_capacity(alloc, catalog.volumes() as usize)?;
    for volume in 0..catalog.volumes() {
        names.push(Text::copy(alloc, catalog.name(volume).bytes())?)?;
    }
    Ok(names)
}

/// What a store of a catalog takes: the names of its volumes, the lists of their images, and two pieces.
pub fn memory_for(
    alloc: Global,
    catalog: &Catalog,
) -> Result<(Vec<Text>, Vec<Numbers>, (Piece, Piece)), OutOfMemory>
    ensures names { IfOk result (λ it. map (λ (name : TextValue). name.bytes) it.0.items ≡ names_of catalog.now) }
    ensures lists { IfOk result (λ it. it.1.items ≡ lists_of catalog.now) }
    ensures rise { IsCatalog catalog.now → IfOk result (λ it. All AreImages it.1.items) }
{
    let names = names_of(alloc, catalog)?;
    let lists = catalog.lists(alloc)?;
    Ok((names, lists, Piece::two(alloc)?))
}
