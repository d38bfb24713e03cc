ghost use Rattle.std.specs.Prelude.{IfOk, option_map};
ghost use Rattle.vss_main.specs.Command.{IsStoreOf};

use std::alloc::Global;
use volume_device::Store;
use vss_names::{OutOfMemory, Text};

/// Where the devices are kept: as files in the folder of this path, or in memory where there is none.
pub fn store_of(alloc: Global, folder: Option<&str>) -> Result<Store, OutOfMemory>
    ensures { IfOk result (λ store. IsStoreOf (option_map (λ s. s.now) folder.entry) store) }
{
    match folder {
        None => Ok(Store::Memory),
        Some(path) => Ok(Store::Folder(Text::copy(alloc, path.as_bytes())?)),
    }
}
