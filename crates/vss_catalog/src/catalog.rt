ghost use Rattle.std.specs.Prelude.{◌≡◌, ◌<◌, ◌≤◌, ◌++◌, ◌∷◌, [], ◌==◌, ◌&&◌, length, slice_get, slice_set, Some, Ok, IfOk, IfErr, IsErrOf, IsTrue, List, All, OnErr, OnOk};
ghost use Rattle.std.specs.List.{remove};
ghost use Rattle.diff_area.specs.Format.{AreVolumes};
ghost use Rattle.diff_map.specs.Copies.{AreImages};
ghost use Rattle.vss_catalog.specs.Entries.{IsCatalog, EntryValue, lists_of, are_names_for, entries_of};
ghost use Rattle.vss_catalog.specs.Reading.{catalog_in, front_of, is_headed, is_sealed, Tells};
ghost use Rattle.vss_catalog.specs.Written.{bytes_of};

use crate::catalog_fault::CatalogFault;
use crate::entry::Entry;
use crate::lists::copied_lists;
use crate::names::{are_names, name_at};
use crate::reading::{MAGIC, body_in, sealed_in};
use crate::writing::{push_entries, push_number};
use block_data::digest;
use cow_volume::CowGroup;
use std::alloc::Global;
use std::marker::Model;
use volume_device::Device;
use vss_names::{Numbers, OutOfMemory, Text};

/// The catalog of a group of volumes: for each its name, its number of blocks and the sets of its images. Contracts see a list
/// of entries.
#[derive(Debug, Drop)]
pub struct Catalog {
    entries: Vec<Entry>,
}

impl Model for Catalog {
    ghost use Rattle.std.specs.Prelude.{◌<◌, ◌^◌, List, length};
    ghost use Rattle.vss_catalog.specs.Entries.{EntryValue};

    ghost Value = { List EntryValue };

    ghost view = { λ c. c.entries.items };

    ghost invariant = { λ c. length c.entries.items < 2 ^ 32 };
}

impl Catalog {
    /// Whether there is a name for each volume of the group, and no more.
    pub fn are_names_for<D: Device>(names: &[Text], group: &CowGroup<D>) -> bool
        ensures { result ≡ are_names_for group.now names.now }
    {
        names.len() == group.volumes() as usize && are_names(names)
    }

    /// The catalog of a group, whose volumes have these names.
    pub fn of_group<D: Device>(
        alloc: Global,
        names: &[Text],
        group: &CowGroup<D>,
    ) -> Result<Catalog, OutOfMemory>
        requires { IsTrue (are_names_for group.now names.now) }
        ensures entries { IfOk result (λ catalog. catalog ≡ entries_of group.now names.now) }
        ensures allowed { IfOk result (λ catalog. IsCatalog catalog) }
    {
        let mut entries = Vec::new(alloc);
        for v in 0..group.volumes() {
            let sets = Numbers::copy(alloc, group.images(v))?;
            let name = name_at(names, v as usize);
            let entry = Entry::of(alloc, name, group.blocks(v), sets)?;
            entries.push(entry)?;
        }
        Ok(Catalog { entries })
    }

    /// The catalog that bytes say. Its lists are such as `CowGroup::resume` takes.
    pub fn decode(alloc: Global, bytes: &[u8]) -> Result<Catalog, CatalogFault>
        ensures ok { IfOk result (λ catalog. catalog_in bytes.now ≡ Ok catalog) }
        ensures refused { IfErr result (λ fault. Tells fault (catalog_in bytes.now)) }
        ensures memory { IsErrOf result CatalogFault.OutOfMemory → IsTrue (is_sealed bytes.now) }
        ensures headed { IsErrOf result CatalogFault.OutOfMemory →
            IsTrue (is_headed (front_of bytes.now)) }
        ensures allowed { IfOk result (λ catalog. IsCatalog catalog) }
    {
        match Catalog::read(alloc, bytes) {
            Ok(catalog) => Ok(catalog),
            Err(fault) => Err(fault),
        }
    }

    #[tactic(auto, unfolding(crate::specs::Reading::catalog_in))]
    fn read(alloc: Global, bytes: &[u8]) -> Result<Catalog, CatalogFault>
        ensures ok { IfOk result (λ catalog. catalog_in bytes.now ≡ Ok catalog) }
        ensures refused { IfErr result (λ fault. Tells fault (catalog_in bytes.now)) }
        ensures memory { IsErrOf result CatalogFault.OutOfMemory → IsTrue (is_sealed bytes.now) }
        ensures headed { IsErrOf result CatalogFault.OutOfMemory →
            IsTrue (is_headed (front_of bytes.now)) }
    {
        let Some(front) = sealed_in(bytes) else {
            return Err(CatalogFault::Digest);
        };
        let entries = body_in(alloc, front)?;
        Ok(Catalog { entries })
    }

    /// The bytes of the catalog.
    #[tactic(auto, unfolding(crate::specs::Written::bytes_of, crate::specs::Written::body_of))]
    pub fn encode(&self, alloc: Global) -> Result<Text, OutOfMemory>
        ensures { IfOk result (λ text. text.bytes ≡ bytes_of self.now) }
    {
        let mut text = Text::copy(alloc, MAGIC.as_slice())?;
        push_number(&mut text, self.volumes())?;
        push_entries(&mut text, &self.entries)?;
        let digest = digest(text.bytes());
        text.add(digest.as_slice())?;
        Ok(text)
    }

    /// Copies of the lists of the images, one for each volume, as `CowGroup::resume` takes them.
    #[tactic(auto, using(crate::proofs::Groups::catalog_lists))]
    pub fn lists(&self, alloc: Global) -> Result<Vec<Numbers>, OutOfMemory>
        ensures lists { IfOk result (λ lists. lists.items ≡ lists_of self.now) }
        ensures rise { IsCatalog self.now → IfOk result (λ lists. All AreImages lists.items) }
    {
        copied_lists(alloc, &self.entries)
    }

    /// How many volumes the group has.
    pub fn volumes(&self) -> u32
        ensures { result ≡ length self.now }
    {
        self.entries.len() as u32
    }

    /// The name of a volume.
    pub fn name(&self, volume: u32) -> &Text
        requires { volume < length self.now }
        ensures { (e : EntryValue) → slice_get self.now volume ≡ Some e → result.now.bytes ≡ e.name }
    {
        self.entries[volume as usize].name()
    }

    /// How many blocks a volume has.
    pub fn blocks(&self, volume: u32) -> u32
        requires { volume < length self.now }
        ensures { (e : EntryValue) → slice_get self.now volume ≡ Some e → result ≡ e.blocks }
    {
        self.entries[volume as usize].blocks()
    }

    /// The sets of the images of a volume, the oldest first.
    pub fn images(&self, volume: u32) -> &[u32]
        requires { volume < length self.now }
        ensures { (e : EntryValue) → slice_get self.now volume ≡ Some e → result.now ≡ e.images }
    {
        self.entries[volume as usize].images()
    }

    /// Gives a volume so many blocks.
    pub fn resize(&mut self, volume: u32, blocks: u32)
        requires { volume < length self.old }
        ensures { (e : EntryValue) → slice_get self.old volume ≡ Some e
            → self.new ≡ slice_set self.old volume (record e { blocks = blocks }) }
    {
        self.entries[volume as usize].resize(blocks);
    }

    /// Adds a volume without images behind the others.
    pub fn add(&mut self, alloc: Global, name: &[u8], blocks: u32) -> Result<(), OutOfMemory>
        requires few { length self.old < 128 }
        requires short { length name.now ≤ 32 }
        ensures added { OnOk result (self.new ≡ self.old ++ record { name = name.now; blocks = blocks; images = [] } ∷ []) }
        ensures same { OnErr result (self.new ≡ self.old) }
    {
        let entry = Entry::of(alloc, name, blocks, Numbers::copy(alloc, &[])?)?;
        self.entries.push(entry)?;
        Ok(())
    }

    /// Takes a volume away.
    pub fn remove(&mut self, volume: u32)
        requires { volume < length self.old }
        ensures { self.new ≡ remove self.old volume }
    {
        let _entry = self.entries.remove(volume as usize);
    }
}
