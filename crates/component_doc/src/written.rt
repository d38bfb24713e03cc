//! The JSON values that a component document is written of.
ghost use Rattle.std.specs.Prelude.{◌≡◌, ◌≤◌, length, map, option_map, slice_get, IfOk, IsTrue, IsUtf8};
ghost use Rattle.serde_json.specs.View.{view, items_view};
ghost use Rattle.writer_meta.specs.Metadata.{part_of, meta_of, full_name, class_text as class_text_of};
ghost use Rattle.writer_meta.specs.Document.{is_allowed_part};
ghost use Rattle.component_doc.specs.Over.{metas_of, AreAllowed, meta_at};
ghost use Rattle.component_doc.specs.Document as document;

use crate::choice::Choice;
use crate::metas::Metas;
use serde_json::{Map, Value, json, put};
use std::alloc::Global;
use std::str;
use uuid::Uuid;
use vss_names::{Context, OutOfMemory, Text};
use writer_meta::Component;

/// The document of these components, in a mode in which components are named one by one or in which all are selected.
#[tactic(auto, unfolding(crate::specs::Document::document_of))]
pub(crate) fn document_of(
    alloc: Global,
    components: Vec<Value>,
    context: Context,
    named: bool,
) -> Result<Value, OutOfMemory>
    ensures { IfOk result
        (λ value. view value ≡ document.document_of (items_view components.items) context named) }
{
    let mut members = Map::new(alloc);
    put(&mut members, alloc, "components", Value::Array(components))?;
    put(
        &mut members,
        alloc,
        "context",
        Value::from(context.number()),
    )?;
    if named {
        return Ok(Value::Object(members));
    }
    put(&mut members, alloc, "select", Value::Bool(false))?;
    Ok(Value::Object(members))
}

/// The values of the choices whose writer is known and has such a component.
pub(crate) fn values_of(
    alloc: Global,
    metas: &Metas,
    choices: &[Choice],
) -> Result<Vec<Value>, OutOfMemory>
    requires { AreAllowed (metas_of metas.now) }
    ensures { IfOk result
        (λ values. items_view values.items ≡ document.choices_data (metas_of metas.now) choices.now) }
{
    let mut values = Vec::with_capacity(alloc, choices.len())?;
    for choice in choices {
        if let Some(value) = value_of(alloc, metas, *choice)? {
            values.push(value)?;
        }
    }
    Ok(values)
}

fn value_of(alloc: Global, metas: &Metas, choice: Choice) -> Result<Option<Value>, OutOfMemory>
    requires { AreAllowed (metas_of metas.now) }
    ensures { IfOk result (λ found. option_map view found
        ≡ document.choice_data choice (meta_at (slice_get (metas_of metas.now) choice.writer))) }
{
    let Some(metadata) = metas.of_writer(choice.writer) else {
        return Ok(None);
    };
    let Some(component) = metadata.components.items().get(choice.component as usize) else {
        return Ok(None);
    };
    Ok(Some(component_value(alloc, metadata.class, component, choice)?))
}

#[tactic(auto, unfolding(crate::specs::Document::component_data))]
fn component_value(
    alloc: Global,
    class: u128,
    component: &Component,
    choice: Choice,
) -> Result<Value, OutOfMemory>
    requires { IsTrue (is_allowed_part (part_of component.now)) }
    ensures { IfOk result (λ value. view value
        ≡ document.component_data class choice.explicit (full_name (part_of component.now)) choice.writer) }
{
    let mut buffer = Uuid::encode_buffer();
    let class = class_text(class, &mut buffer);
    let full_name = component.full_name(alloc)?;
    let path = str_of(&full_name);
    Ok(json!(in alloc; {
        "class": class,
        "explicit": choice.explicit,
        "path": path,
        "writer": choice.writer,
    })?)
}

/// The class id, hyphenated and in lower case.
fn class_text(class: u128, buffer: &mut [u8]) -> &str
    requires { 36 ≤ length buffer.old }
    ensures { result.now ≡ class_text_of class }
{
    Uuid::from_u128(class).hyphenated().encode_lower(buffer)
}

/// The text as a string.
fn str_of(text: &Text) -> &str
    requires { IsUtf8 text.now.bytes }
    ensures { result.now ≡ text.now.bytes }
{
    str::from_utf8(text.bytes()).unwrap()
}
