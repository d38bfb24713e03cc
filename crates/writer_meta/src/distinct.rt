//! Full names that two components have.
ghost use Rattle.std.specs.Prelude.{◌≡◌, [], map, option_map, IfOk};
ghost use Rattle.writer_meta.specs.Metadata.{part_of};
ghost use Rattle.writer_meta.specs.Document.{double_after};

use crate::component::Component;
use std::alloc::Global;
use std::collections::HashSet;
use vss_names::{OutOfMemory, Text};

/// The first full name that an earlier component has.
pub(crate) fn first_double(
    alloc: Global,
    components: &[Component],
) -> Result<Option<Text>, OutOfMemory>
    ensures { IfOk result (λ double. option_map (λ name. name.bytes) double
        ≡ double_after [] (map part_of components.now)) }
{
    let mut names = HashSet::new(alloc);
    for component in components {
        let name = component.full_name(alloc)?.into_vec();
        if !names.insert(name)? {
            return Ok(Some(component.full_name(alloc)?));
        }
    }
    Ok(None)
}
