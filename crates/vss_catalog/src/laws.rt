//! What holds of every catalog: functions that do nothing, whose contracts are the laws.

ghost use Rattle.std.specs.Prelude.{◌≡◌, ℕ, List, Ok, IsTrue};
ghost use Rattle.vss_catalog.specs.Entries.{IsCatalog, AreBytes, EntryValue, lists_of, are_names_for, entries_of};
ghost use Rattle.vss_catalog.specs.Reading.{catalog_in};
ghost use Rattle.vss_catalog.specs.Written.{bytes_of};

use cow_volume::CowGroup;
use volume_device::Device;
use vss_names::Text;

/// The bytes of a catalog say that catalog.
pub fn what_is_written_is_read_back()
    ensures { (entries : List EntryValue) → IsCatalog entries → catalog_in (bytes_of entries) ≡ Ok entries }
{}

/// Bytes that say a catalog are the bytes of that catalog, and it is allowed.
pub fn what_is_read_is_written_again()
    ensures bytes { (bytes : List ℕ) (entries : List EntryValue) → AreBytes bytes → catalog_in bytes ≡ Ok entries → bytes_of entries ≡ bytes }
    ensures allowed { (bytes : List ℕ) (entries : List EntryValue) → AreBytes bytes → catalog_in bytes ≡ Ok entries → IsCatalog entries }
{}

/// The bytes of a group's catalog say that catalog.
pub fn the_catalog_of_a_group_is_read_back<D: Device>(names: &[Text], group: &CowGroup<D>)
    requires { IsTrue (are_names_for group.now names.now) }
    ensures { catalog_in (bytes_of (entries_of group.now names.now)) ≡ Ok (entries_of group.now names.now) }
{
    let _facts = group.volumes();
}

/// The lists of a group's catalog are the group's own, so that it is taken up again with them (`cow_volume::laws`).
pub fn the_lists_of_a_group_are_its_own<D: Device>(names: &[Text], group: &CowGroup<D>)
    ensures { lists_of (entries_of group.now names.now) ≡ group.now.images }
{
    let _facts = group.volumes();
}
