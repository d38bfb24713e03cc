//! The lists of the images of a catalog's volumes.

ghost use Rattle.std.specs.Prelude.{◌≡◌, IfOk};
ghost use Rattle.vss_catalog.specs.Entries.{lists_of};

use crate::entry::Entry;
use std::alloc::Global;
use vss_names::{Numbers, OutOfMemory};

/// A copy of the list of each entry.
pub fn copied_lists(alloc: Global, entries: &[Entry]) -> Result<Vec<Numbers>, OutOfMemory>
    ensures { IfOk result (λ lists. lists.items ≡ lists_of entries.now) }
{
    let mut lists = Vec::with_capacity(alloc, entries.len())?;
    for entry in entries {
        lists.push(Numbers::copy(alloc, entry.images())?)?;
    }
    Ok(lists)
}
