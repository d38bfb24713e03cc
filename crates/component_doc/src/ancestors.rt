//! Whether a component is above another in the logical paths of a writer.
ghost use Rattle.std.specs.Prelude.{◌≡◌};
ghost use Rattle.writer_meta.specs.Metadata as metadata;
ghost use Rattle.writer_meta.specs.Metadata.{full_name, part_of};
ghost use Rattle.component_doc.specs.Reading.{IsBehind};

use writer_meta::Component;

/// What a path has behind the full name of a component, where it begins with that name.
fn rest_of<'a>(path: &'a [u8], component: &Component) -> Option<&'a [u8]>
    ensures { IsBehind path.now (full_name (part_of component.now)) result }
{
    let name = component.name.bytes();
    if component.path.is_empty() {
        return path.strip_prefix(name);
    }
    let below = path.strip_prefix(component.path.bytes())?;
    below.strip_prefix(b"\\")?.strip_prefix(name)
}

/// Whether the first component is an ancestor of the second.
pub(crate) fn is_ancestor(ancestor: &Component, component: &Component) -> bool
    ensures { result ≡ metadata.is_ancestor (part_of ancestor.now) (part_of component.now) }
{
    let Some(rest) = rest_of(component.path.bytes(), ancestor) else {
        return false;
    };
    rest.is_empty() || rest[0] == b'\\'
}
