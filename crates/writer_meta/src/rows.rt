//! The rows of a metadata document and of its components, a function for each.
ghost use Rattle.std.specs.Prelude.{◌≡◌, IfOk, IfErr};
ghost use Rattle.serde_json.specs.View.{view, items_view};
ghost use Rattle.writer_meta.specs.Refusal.{Tells};
ghost use Rattle.writer_meta.specs.Document.{class_in, name_in, level_in, usage_in, source_in, freeze_timeout_in, components_in, kind_in, path_in, component_name_in, selectable_in, seen};

use crate::field::Field;
use crate::meta_fault::MetaFault;
use crate::values;
use serde_json::Value;
use std::alloc::Global;
use tick_limits::DEFAULT_FREEZE;
use vss_names::{ComponentType, Level, SourceKind, Text, Usage};

#[tactic(auto, unfolding(crate::specs::Document::class_in))]
pub(crate) fn class_in(document: &Value) -> Result<u128, MetaFault>
    ensures ok { IfOk result (λ it. class_in (view document.now) ≡ Ok it) }
    ensures refused { IfErr result (λ fault. Tells fault (class_in (view document.now))) }
{
    let Some(value) = document.get("class") else {
        return Err(MetaFault::MissingField(Field::Class));
    };
    let Some(class) = values::class_of(value) else {
        return Err(MetaFault::WrongKind(Field::Class));
    };
    Ok(class)
}

#[tactic(auto, unfolding(crate::specs::Document::name_in))]
pub(crate) fn name_in(alloc: Global, document: &Value) -> Result<Text, MetaFault>
    ensures ok { IfOk result (λ it. name_in (view document.now) ≡ Ok it.bytes) }
    ensures refused { IfErr result (λ fault. Tells fault (name_in (view document.now))) }
{
    let Some(value) = document.get("name") else {
        return Err(MetaFault::MissingField(Field::Name));
    };
    let Some(name) = values::name_of(value) else {
        return Err(MetaFault::WrongKind(Field::Name));
    };
    Ok(Text::copy(alloc, name)?)
}

#[tactic(auto, unfolding(crate::specs::Document::level_in))]
pub(crate) fn level_in(document: &Value) -> Result<Level, MetaFault>
    ensures ok { IfOk result (λ it. level_in (view document.now) ≡ Ok it) }
    ensures refused { IfErr result (λ fault. Tells fault (level_in (view document.now))) }
{
    let Some(value) = document.get("level") else {
        return Err(MetaFault::MissingField(Field::Level));
    };
    let Some(level) = values::level_of(value) else {
        return Err(MetaFault::WrongKind(Field::Level));
    };
    Ok(level)
}

#[tactic(auto, unfolding(crate::specs::Document::usage_in))]
pub(crate) fn usage_in(document: &Value) -> Result<Usage, MetaFault>
    ensures ok { IfOk result (λ it. usage_in (view document.now) ≡ Ok it) }
    ensures refused { IfErr result (λ fault. Tells fault (usage_in (view document.now))) }
{
    let Some(value) = document.get("usage") else {
        return Err(MetaFault::MissingField(Field::Usage));
    };
    let Some(usage) = values::usage_of(value) else {
        return Err(MetaFault::WrongKind(Field::Usage));
    };
    Ok(usage)
}

#[tactic(auto, unfolding(crate::specs::Document::source_in))]
pub(crate) fn source_in(document: &Value) -> Result<SourceKind, MetaFault>
    ensures ok { IfOk result (λ it. source_in (view document.now) ≡ Ok it) }
    ensures refused { IfErr result (λ fault. Tells fault (source_in (view document.now))) }
{
    let Some(value) = document.get("source") else {
        return Err(MetaFault::MissingField(Field::Source));
    };
    let Some(source) = values::source_of(value) else {
        return Err(MetaFault::WrongKind(Field::Source));
    };
    Ok(source)
}

#[tactic(auto, unfolding(crate::specs::Document::freeze_timeout_in))]
pub(crate) fn freeze_timeout_in(document: &Value) -> Result<u32, MetaFault>
    ensures ok { IfOk result (λ it. freeze_timeout_in (view document.now) ≡ Ok it) }
    ensures refused { IfErr result (λ fault. Tells fault (freeze_timeout_in (view document.now))) }
{
    let Some(value) = document.get("freeze_timeout") else {
        return Ok(DEFAULT_FREEZE);
    };
    let Some(ticks) = values::freeze_timeout_of(value) else {
        return Err(MetaFault::WrongKind(Field::FreezeTimeout));
    };
    Ok(ticks)
}

#[tactic(auto, unfolding(crate::specs::Document::components_in))]
pub(crate) fn components_in(document: &Value) -> Result<&[Value], MetaFault>
    ensures ok { IfOk result (λ it. components_in (view document.now) ≡ Ok (items_view it.now)) }
    ensures refused { IfErr result (λ fault. Tells fault (components_in (view document.now))) }
{
    let Some(value) = document.get("components") else {
        return Err(MetaFault::MissingField(Field::Components));
    };
    let Some(components) = value.as_array() else {
        return Err(MetaFault::WrongKind(Field::Components));
    };
    Ok(components)
}

#[tactic(auto, unfolding(crate::specs::Document::kind_in))]
pub(crate) fn kind_in(found: Option<&Value>) -> Result<ComponentType, MetaFault>
    ensures ok { IfOk result (λ it. kind_in (seen found.entry) ≡ Ok it) }
    ensures refused { IfErr result (λ fault. Tells fault (kind_in (seen found.entry))) }
{
    let Some(value) = found else {
        return Err(MetaFault::MissingField(Field::Kind));
    };
    let Some(kind) = values::kind_of(value) else {
        return Err(MetaFault::WrongKind(Field::Kind));
    };
    Ok(kind)
}

#[tactic(auto, unfolding(crate::specs::Document::path_in))]
pub(crate) fn path_in(alloc: Global, found: Option<&Value>) -> Result<Text, MetaFault>
    ensures ok { IfOk result (λ it. path_in (seen found.entry) ≡ Ok it.bytes) }
    ensures refused { IfErr result (λ fault. Tells fault (path_in (seen found.entry))) }
{
    let Some(value) = found else {
        return Ok(Text::new(alloc));
    };
    let Some(path) = values::path_of(value) else {
        return Err(MetaFault::WrongKind(Field::Path));
    };
    Ok(Text::copy(alloc, path)?)
}

#[tactic(auto, unfolding(crate::specs::Document::component_name_in))]
pub(crate) fn component_name_in(alloc: Global, found: Option<&Value>) -> Result<Text, MetaFault>
    ensures ok { IfOk result (λ it. component_name_in (seen found.entry) ≡ Ok it.bytes) }
    ensures refused { IfErr result (λ fault. Tells fault (component_name_in (seen found.entry))) }
{
    let Some(value) = found else {
        return Err(MetaFault::MissingField(Field::Name));
    };
    let Some(name) = values::component_name_of(value) else {
        return Err(MetaFault::WrongKind(Field::Name));
    };
    Ok(Text::copy(alloc, name)?)
}

#[tactic(auto, unfolding(crate::specs::Document::selectable_in))]
pub(crate) fn selectable_in(found: Option<&Value>) -> Result<bool, MetaFault>
    ensures ok { IfOk result (λ it. selectable_in (seen found.entry) ≡ Ok it) }
    ensures refused { IfErr result (λ fault. Tells fault (selectable_in (seen found.entry))) }
{
    let Some(value) = found else {
        return Err(MetaFault::MissingField(Field::Selectable));
    };
    let Some(selectable) = values::selectable_of(value) else {
        return Err(MetaFault::WrongKind(Field::Selectable));
    };
    Ok(selectable)
}
