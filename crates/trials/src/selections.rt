//! Components that are named, refused and chosen, and their documents.

ghost use Rattle.std.specs.Prelude.{◌≡◌, length, IfOk, IsTrue};
ghost use Rattle.writer_meta.specs.Document.{IsAllowed};
ghost use Rattle.writer_meta.specs.Metadata.{meta_of};
ghost use Rattle.component_doc.specs.Over.{metas_of, all_have_few, is_named, AreAllowed, IsOver};

use crate::page::Page;
use crate::stopped::{Done, Stopped};
use component_doc::{Metas, Selection};
use std::alloc::Global;
use vss_names::Context;
use writer_meta::Metadata;

/// Of one writer.
#[tactic(auto, using(crate::proofs::Few::few_known))]
fn known(alloc: Global, metadata: &Metadata) -> Result<Metas, Stopped>
    requires { IsAllowed (meta_of metadata.now) }
    ensures allowed { IfOk result (λ metas. AreAllowed (metas_of metas)) }
    ensures few { IfOk result (λ metas. IsTrue (all_have_few (metas_of metas))) }
    ensures len { IfOk result (λ metas. length metas ≡ 1) }
{
    let mut items = Vec::new(alloc);
    items.push(Some(metadata))?;
    Ok(Metas::of(items))
}

/// Names a component, and shows whether it is refused.
fn add(alloc: Global, page: &mut Page, selection: &mut Selection, metas: &Metas, path: &str)
    requires few { IsTrue (all_have_few (metas_of metas.now)) }
    requires named { IsTrue (is_named selection.old.selected) }
    requires over { IsOver (metas_of metas.now) selection.old }
    ensures named { IsTrue (is_named selection.new.selected) }
    ensures writers { selection.new.writers ≡ selection.old.writers }
    ensures over { IsOver (metas_of metas.now) selection.new }
{
    match selection.add(alloc, metas, 0, path.as_bytes()) {
        Ok(()) => page.line(path, b"named"),
        Err(fault) => page.print(path, &fault),
    }
}

/// Shows which components are chosen, and which writers take part.
fn show_chosen(alloc: Global, page: &mut Page, selection: &Selection, metas: &Metas) -> Done
    requires few { IsTrue (all_have_few (metas_of metas.now)) }
    requires writers { length metas.now ≡ selection.now.writers }
{
    page.show("participants", &selection.participants(alloc)?);
    page.show("chosen", &selection.chosen(alloc, metas)?);
    Ok(())
}

/// Shows the document of a selection, and whether it is read back.
fn show_document(alloc: Global, page: &mut Page, selection: &Selection, metas: &Metas) -> Done
    requires allowed { AreAllowed (metas_of metas.now) }
    requires over { IsOver (metas_of metas.now) selection.now }
    requires len { length metas.now ≡ 1 }
{
    let document = selection.to_json(alloc, metas, Context::AppRollback)?;
    page.line("document", document.bytes());
    page.show(
        "read",
        &Selection::from_json(alloc, metas, document.bytes()).is_ok(),
    );
    page.show("over", &selection.is_over(alloc, metas)?);
    page.show("allowed", &metas.are_allowed(alloc)?);
    Ok(())
}

/// Shows why a text is no document over these metadata.
fn show_refused(alloc: Global, page: &mut Page, metas: &Metas, text: &[u8])
    requires allowed { AreAllowed (metas_of metas.now) }
    requires len { length metas.now ≡ 1 }
{
    match Selection::from_json(alloc, metas, text) {
        Ok((context, _)) => page.show("read", &context),
        Err(fault) => page.print("refused", &fault),
    }
}

/// Names components that are not there, that cannot be selected, that can, and that are named already.
fn add_all(alloc: Global, page: &mut Page, selection: &mut Selection, metas: &Metas)
    requires few { IsTrue (all_have_few (metas_of metas.now)) }
    requires named { IsTrue (is_named selection.old.selected) }
    requires over { IsOver (metas_of metas.now) selection.old }
    ensures named { IsTrue (is_named selection.new.selected) }
    ensures writers { selection.new.writers ≡ selection.old.writers }
    ensures over { IsOver (metas_of metas.now) selection.new }
{
    add(alloc, page, selection, metas, "none");
    add(alloc, page, selection, metas, "main\\log1");
    add(alloc, page, selection, metas, "main");
    add(alloc, page, selection, metas, "main");
}

/// A named component comes with those below it.
fn show_named(alloc: Global, page: &mut Page, metas: &Metas) -> Done
    requires allowed { AreAllowed (metas_of metas.now) }
    requires few { IsTrue (all_have_few (metas_of metas.now)) }
    requires len { length metas.now ≡ 1 }
{
    let mut named = Selection::new(alloc, 1)?;
    show_chosen(alloc, page, &named, metas)?;
    add_all(alloc, page, &mut named, metas);
    show_chosen(alloc, page, &named, metas)?;
    show_document(alloc, page, &named, metas)?;
    show_refused(alloc, page, metas, b"{}");
    show_refused(alloc, page, metas, b"{");
    Ok(())
}

/// A component of a writer whose metadata are not known is not found.
fn show_unknown(alloc: Global, page: &mut Page) -> Done {
    let mut items = Vec::new(alloc);
    items.push(None)?;
    let metas = Metas::of(items);
    let mut selection = Selection::new(alloc, 1)?;
    match selection.add(alloc, &metas, 0, b"main") {
        Ok(()) => page.line("unknown", b"named"),
        Err(fault) => page.print("unknown", &fault),
    }
    Ok(())
}

/// Shows selections of one writer's components.
pub fn show_selection(alloc: Global, page: &mut Page, text: &str) -> Done {
    let Ok(metadata) = Metadata::from_json(alloc, text.as_bytes()) else {
        return Err(Stopped);
    };
    let metas = known(alloc, &metadata)?;
    show_named(alloc, page, &metas)?;
    show_unknown(alloc, page)
}
