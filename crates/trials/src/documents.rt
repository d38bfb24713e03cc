//! Documents that are read, refused and written.

ghost use Rattle.writer_meta.specs.Document.{IsAllowed};
ghost use Rattle.writer_meta.specs.Metadata.{meta_of};

use crate::page::Page;
use crate::stopped::{Done, Stopped};
use std::alloc::Global;
use writer_meta::{Component, Metadata};

/// Shows the numbers and names of a document.
fn show_fields(page: &mut Page, metadata: &Metadata) {
    page.show("class", &metadata.class);
    page.show("level", &metadata.level);
    page.show("usage", &metadata.usage);
    page.show("source", &metadata.source);
    page.show("timeout", &metadata.freeze_timeout);
}

/// Shows a component by its full name, and whether it can be selected.
fn show_component(alloc: Global, page: &mut Page, component: &Component) -> Done {
    let name = component.full_name(alloc)?;
    page.line("component", name.bytes());
    page.show("selectable", &component.selectable);
    Ok(())
}

/// Shows the name and the components, in order.
fn show_parts(alloc: Global, page: &mut Page, metadata: &Metadata) -> Done {
    page.line("name", metadata.name.bytes());
    for component in metadata.components.items() {
        show_component(alloc, page, component)?;
    }
    Ok(())
}

/// Shows the parts of a copy, and that a time-out of 0 is not allowed.
fn show_copy(alloc: Global, page: &mut Page, metadata: &Metadata) -> Done {
    let mut copy = metadata.copy(alloc)?;
    show_parts(alloc, page, &copy)?;
    copy.freeze_timeout = 0;
    page.show("allowed", &copy.is_allowed(alloc)?);
    Ok(())
}

/// Shows a document with all its members, as it is written and as a copy has them.
fn show_metadata(alloc: Global, page: &mut Page, metadata: &Metadata) -> Done
    requires { IsAllowed (meta_of metadata.now) }
{
    show_fields(page, metadata);
    page.show("allowed", &metadata.is_allowed(alloc)?);
    page.line("written", metadata.to_json(alloc)?.bytes());
    show_copy(alloc, page, metadata)
}

/// Shows what a document says, or why it is refused.
pub fn show_document(alloc: Global, page: &mut Page, text: &str) -> Done {
    match Metadata::from_json(alloc, text.as_bytes()) {
        Ok(metadata) => show_metadata(alloc, page, &metadata),
        Err(fault) => {
            page.print("refused", &fault);
            page.show("number", &fault.number());
            Ok(())
        }
    }
}
