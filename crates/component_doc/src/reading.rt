//! What a JSON value names as a component document does, whether or not it is one.
ghost use Rattle.std.specs.Prelude.{◌≡◌, ◌<◌, ◌^◌, [], Some, option_map, length, IfOk, IfErr, OnOk, IsTrue};
ghost use Rattle.serde_json.specs.View.{view, items_view};
ghost use Rattle.component_doc.specs.Over.{metas_of, all_have_few, pairs_of, is_named, IsOver};
ghost use Rattle.component_doc.specs.Selection.{Named, naming};
ghost use Rattle.component_doc.specs.Reading.{context_in, explicit_in, writer_in, path_in, pairs_named, named_by, named_by_all, components_in, selected_in};
ghost use Rattle.component_doc.specs.Refusal.{Lacks};

use crate::add_fault::AddFault;
use crate::doc_fault::DocFault;
use crate::metas::Metas;
use crate::selection::Selection;
use serde_json::Value;
use std::alloc::Global;
use vss_names::Context;

/// The context that a document says.
#[tactic(auto, using(crate::proofs::ReadBack::no_context_past), unfolding(crate::specs::Reading::context_in))]
pub(crate) fn context_of(document: &Value) -> Option<Context>
    ensures { result ≡ context_in (view document.now) }
{
    let number = document.get("context")?.as_u64()?;
    if number > u32::MAX as u64 {
        return None;
    }
    Context::of_number(number as u32)
}

/// The selection that a document names: all components, or those that are explicit, each added in turn.
#[tactic(auto, unfolding(crate::specs::Reading::selected_in))]
pub(crate) fn selection_of(
    alloc: Global,
    metas: &Metas,
    document: &Value,
) -> Result<Selection, DocFault>
    requires few { IsTrue (all_have_few (metas_of metas.now)) }
    requires writers { length metas.now < 2 ^ 32 }
    ensures ok { IfOk result
        (λ selection. selected_in (metas_of metas.now) (view document.now) ≡ Some selection.selected) }
    ensures over { IfOk result (λ selection. IsOver (metas_of metas.now) selection) }
    ensures refused { IfErr result
        (λ fault. Lacks fault (selected_in (metas_of metas.now) (view document.now))) }
{
    if document.get("select").is_some() {
        return Ok(Selection::all(alloc, metas)?);
    }
    let Some(components) = components_of(document) else {
        return Err(DocFault::NotDocument);
    };
    named_of(alloc, metas, components)
}

#[tactic(auto, unfolding(crate::specs::Reading::components_in))]
fn components_of(document: &Value) -> Option<&[Value]>
    ensures { option_map (λ it. items_view it.now) result ≡ components_in (view document.now) }
{
    let components = document.get("components")?.as_array()?;
    Some(components)
}

fn named_of(alloc: Global, metas: &Metas, components: &[Value]) -> Result<Selection, DocFault>
    requires few { IsTrue (all_have_few (metas_of metas.now)) }
    requires writers { length metas.now < 2 ^ 32 }
    ensures ok { IfOk result
        (λ selection. option_map Named (named_by_all (metas_of metas.now) [] (items_view components.now)) ≡ Some selection.selected) }
    ensures over { IfOk result (λ selection. IsOver (metas_of metas.now) selection) }
    ensures refused { IfErr result
        (λ fault. Lacks fault (named_by_all (metas_of metas.now) [] (items_view components.now))) }
{
    let mut selection = Selection::new(alloc, metas.len() as u32)?;
    for component in components {
        name_component(alloc, metas, component, &mut selection)?;
    }
    Ok(selection)
}

/// Names a component of a document, if it is explicit.
#[tactic(auto, unfolding(crate::specs::Reading::named_by))]
fn name_component(
    alloc: Global,
    metas: &Metas,
    component: &Value,
    selection: &mut Selection,
) -> Result<(), DocFault>
    requires few { IsTrue (all_have_few (metas_of metas.now)) }
    requires writers { length metas.now < 2 ^ 32 }
    requires named { IsTrue (is_named selection.old.selected) }
    ensures ok { OnOk result
        (named_by (metas_of metas.now) (pairs_of selection.old.selected) (view component.now) ≡ Some (pairs_of selection.new.selected)) }
    ensures refused { IfErr result
        (λ fault. Lacks fault (named_by (metas_of metas.now) (pairs_of selection.old.selected) (view component.now))) }
    ensures named { IsTrue (is_named selection.new.selected) }
    ensures over { IsOver (metas_of metas.now) selection.old → IsOver (metas_of metas.now) selection.new }
{
    let Some(explicit) = explicit_of(component) else {
        return Err(DocFault::NotDocument);
    };
    if !explicit {
        return Ok(());
    }
    let Some(writer) = writer_of(component) else {
        return Err(DocFault::NotDocument);
    };
    let Some(path) = path_of(component) else {
        return Err(DocFault::NotDocument);
    };
    if writer > u32::MAX as u64 {
        return Err(DocFault::NotDocument);
    }
    name_path(alloc, metas, writer as u32, path.as_bytes(), selection)
}

/// Names a component by its writer and its full name.
fn name_path(
    alloc: Global,
    metas: &Metas,
    writer: u32,
    path: &[u8],
    selection: &mut Selection,
) -> Result<(), DocFault>
    requires few { IsTrue (all_have_few (metas_of metas.now)) }
    requires named { IsTrue (is_named selection.old.selected) }
    ensures ok { OnOk result
        (pairs_named (naming (metas_of metas.now) writer path.now (pairs_of selection.old.selected)) ≡ Some (pairs_of selection.new.selected)) }
    ensures refused { IfErr result
        (λ fault. Lacks fault (pairs_named (naming (metas_of metas.now) writer path.now (pairs_of selection.old.selected)))) }
    ensures named { IsTrue (is_named selection.new.selected) }
    ensures over { IsOver (metas_of metas.now) selection.old → IsOver (metas_of metas.now) selection.new }
{
    match selection.add(alloc, metas, writer, path) {
        Ok(()) => Ok(()),
        Err(AddFault::OutOfMemory) => Err(DocFault::OutOfMemory),
        Err(_) => Err(DocFault::NotDocument),
    }
}

#[tactic(auto, unfolding(crate::specs::Reading::explicit_in))]
fn explicit_of(component: &Value) -> Option<bool>
    ensures { result ≡ explicit_in (view component.now) }
{
    component.get("explicit")?.as_bool()
}

#[tactic(auto, unfolding(crate::specs::Reading::writer_in))]
fn writer_of(component: &Value) -> Option<u64>
    ensures { result ≡ writer_in (view component.now) }
{
    component.get("writer")?.as_u64()
}

#[tactic(auto, unfolding(crate::specs::Reading::path_in))]
fn path_of(component: &Value) -> Option<&str>
    ensures { option_map (λ path. path.now) result ≡ path_in (view component.now) }
{
    component.get("path")?.as_str()
}
