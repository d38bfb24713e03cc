//! Why a writer's metadata document is refused. The fault is the one that its reader gives.

use super::near::nearest;
use super::notes::Notes;
use super::piece::Piece::{Meant, Of, Shown, Words};
use super::showing::part;
use serde_json::Value;
use std::alloc::Global;
use std::mem;
use vss_names::OutOfMemory;
use writer_meta::{Field, MetaFault, Metadata};

const MEMBERS: [&[u8]; 7] = [
    b"class",
    b"name",
    b"level",
    b"usage",
    b"source",
    b"freeze_timeout",
    b"components",
];

const COMPONENT_MEMBERS: [&[u8]; 4] = [b"type", b"path", b"name", b"selectable"];

/// What the reader says of a document.
fn fault_of(alloc: Global, text: &[u8]) -> Result<Option<MetaFault>, OutOfMemory> {
    match Metadata::from_json(alloc, text) {
        Ok(_) => Ok(None),
        Err(MetaFault::OutOfMemory) => Err(OutOfMemory),
        Err(fault) => Ok(Some(fault)),
    }
}

/// Whether the reader refuses the document that is written of a value.
fn is_refused(alloc: Global, document: &Value) -> Result<bool, OutOfMemory> {
    let text = document.to_string(alloc)?;
    Ok(fault_of(alloc, text.as_bytes())?.is_some())
}

/// Gives a document these components, and answers those that it had.
fn replace_components(document: &mut Value, items: Vec<Value>) -> Option<Vec<Value>> {
    let list = document.get_mut("components")?.as_array_mut()?;
    Some(mem::replace(list, items))
}

/// Which component, counted from 0, is refused in a document that is refused for none of its other members. That one alone is then
/// left to the document.
fn refused_component(alloc: Global, document: &mut Value) -> Result<Option<usize>, OutOfMemory> {
    let Some(items) = replace_components(document, Vec::new(alloc)) else {
        return Ok(None);
    };
    if is_refused(alloc, document)? {
        return Ok(None);
    }
    for (i, item) in items.into_iter().enumerate() {
        let mut one = Vec::new(alloc);
        one.push(item)?;
        replace_components(document, one);
        if is_refused(alloc, document)? {
            return Ok(Some(i));
        }
    }
    Ok(None)
}

/// What the value of a member has to be.
fn wanted(field: Field, of_component: bool) -> &'static str {
    match field {
        Field::Document => "an object: {\"class\":..}",
        Field::Class => "a class id, as \"22222222-2222-4222-8222-222222222222\"",
        Field::Name if of_component => {
            "a string of 1 to 64 printable ASCII characters without a backslash"
        }
        Field::Name => "a string of 1 to 128 printable ASCII characters",
        Field::Level => "1 (system), 2 (back end) or 3 (front end)",
        Field::Usage => {
            "1 (bootable system state), 2 (system service), 3 (user data) or 4 (other)"
        }
        Field::Source => "1 (database with transactions), 2 (without them) or 3 (other)",
        Field::FreezeTimeout => "a number of ticks from 1 to 60000",
        Field::Components if of_component => "an object: {\"name\":..}",
        Field::Components => "a list of objects",
        Field::Kind => "1 (database) or 2 (file group)",
        Field::Path => {
            "a string of at most 255 printable ASCII characters, with no backslash at an end and no two in a row"
        }
        Field::Selectable => "true or false",
    }
}

/// The value of a member, as JSON.
fn found_in(
    alloc: Global,
    document: &Value,
    component: Option<usize>,
    field: Field,
) -> Result<String, OutOfMemory> {
    let item = match component {
        None => Some(document),
        Some(_) => document.get("components").and_then(|list| list.get(0usize)),
    };
    let value = match field {
        Field::Document => item,
        Field::Components if component.is_some() => item,
        _ => item.and_then(|item| item.get(field.member())),
    };
    match value {
        None => Ok(String::new(alloc)),
        Some(value) => Ok(value.to_string(alloc)?),
    }
}

fn say_wrong_kind(
    notes: &mut Notes,
    document: &Value,
    component: Option<usize>,
    field: Field,
) -> Result<(), OutOfMemory> {
    let found = found_in(notes.alloc(), document, component, field)?;
    let (form, member) = match field {
        Field::Document => ("{}the document{} is {}; it has to be {}", ""),
        Field::Components if component.is_some() => ("{}the value{} is {}; it has to be {}", ""),
        _ => ("\"{}\"{} is {}; it has to be {}", field.member()),
    };
    let asked = Words(wanted(field, component.is_some()));
    notes.say(
        form,
        &[Words(member), Of(component), Shown(found.as_bytes()), asked],
    )
}

/// Says that a member is none of these, and which was probably meant.
fn say_no_member<'a>(
    notes: &mut Notes,
    name: &'a [u8],
    component: Option<usize>,
    members: &[&'a [u8]],
) -> Result<(), OutOfMemory> {
    let meant = nearest(notes.alloc(), name, members)?;
    notes.say(
        "\"{}\"{} is no member{}",
        &[Shown(name), Of(component), Meant(meant)],
    )
}

fn say_unknown(
    notes: &mut Notes,
    name: &[u8],
    component: Option<usize>,
) -> Result<(), OutOfMemory> {
    if component.is_some() {
        say_no_member(notes, name, component, &COMPONENT_MEMBERS)?;
        return notes.add("the members are type, name, selectable, and path if it is not empty");
    }
    say_no_member(notes, name, component, &MEMBERS)?;
    notes.add(
        "the members are class, name, level, usage, source, components, and freeze_timeout if it is not 60000",
    )
}

/// Says of a value that is read as JSON why it is no metadata document.
fn say_fault(
    notes: &mut Notes,
    document: &Value,
    component: Option<usize>,
    fault: &MetaFault,
) -> Result<(), OutOfMemory> {
    match fault {
        MetaFault::MissingField(field) => {
            let asked = Words(wanted(*field, component.is_some()));
            notes.say(
                "\"{}\"{} is missing; it has to be {}",
                &[Words(field.member()), Of(component), asked],
            )
        }
        MetaFault::WrongKind(field) => say_wrong_kind(notes, document, component, *field),
        MetaFault::UnknownName(name) => say_unknown(notes, name.bytes(), component),
        MetaFault::DoubleComponent(name) => notes.say(
            "two components have the full name `{}`",
            &[Shown(name.bytes())],
        ),
        MetaFault::TooMany => notes.add("a document has at most 1024 components"),
        MetaFault::NotJson => notes.add("it is no JSON"),
        MetaFault::OutOfMemory => Ok(()),
    }
}

/// Says what is wrong at a place of a text that is no JSON.
fn say_no_json(notes: &mut Notes, text: &[u8], at: usize, is_cut: bool) -> Result<(), OutOfMemory> {
    let found = part(text, at, at.saturating_add(1));
    let before = part(text, at.saturating_sub(1), at);
    if is_cut {
        return notes.add("the JSON ends too early: a `\"`, `]` or `}` is missing");
    }
    if found == b"'".as_slice() {
        return notes.add(
            "this is no JSON: strings and names stand in double quotes, and not in single ones",
        );
    }
    let form = if before == b",".as_slice() {
        "this is no JSON: a comma stands before `{}`"
    } else {
        "this is no JSON from the character `{}` on"
    };
    notes.say(form, &[Shown(found)])?;
    match text.first() {
        Some(b'{') => Ok(()),
        _ => notes.add("the document itself stands in this line: {\"class\":..}"),
    }
}

/// Says why a text is no metadata document, and answers at which place of it, where there is one.
pub fn say_document(notes: &mut Notes, text: &[u8]) -> Result<Option<usize>, OutOfMemory> {
    let alloc = notes.alloc();
    let Some(fault) = fault_of(alloc, text)? else {
        return Ok(None);
    };
    match Value::from_slice(alloc, text) {
        Ok(value) => {
            let mut document = value;
            let component = refused_component(alloc, &mut document)?;
            say_fault(notes, &document, component, &fault)?;
            Ok(None)
        }
        Err(error) if error.is_memory() => Err(OutOfMemory),
        Err(error) => {
            let at = error.column().saturating_sub(1);
            say_no_json(notes, text, at, error.is_eof())?;
            Ok(Some(at))
        }
    }
}
