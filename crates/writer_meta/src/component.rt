ghost use Rattle.std.specs.Prelude.{◌≡◌, IfOk, IfErr};
ghost use Rattle.serde_json.specs.View.{view};
ghost use Rattle.writer_meta.specs.Refusal.{Tells};
ghost use Rattle.writer_meta.specs.Document.{part_in, rows_of_part, rows_seen};

use crate::field::Field;
use crate::meta_fault::MetaFault;
use crate::part_values::PartValues;
use crate::utf8::str_of;
use crate::{rows, values};
use serde_json::{Value, json};
use std::alloc::Global;
use vss_names::{ComponentType, OutOfMemory, Text};

/// One component of a writer: a unit that a requestor may choose to back up.
#[derive(Debug, Drop)]
pub struct Component {
    pub kind: ComponentType,
    /// The logical path: names parted by backslashes, or nothing.
    pub path: Text,
    pub name: Text,
    /// Whether a requestor may choose it by itself.
    pub selectable: bool,
}

impl Component {
    ghost use Rattle.std.specs.Prelude.{IsTrue};
    ghost use Rattle.writer_meta.specs.Metadata.{part_of, full_name, part_data};
    ghost use Rattle.writer_meta.specs.Document.{is_allowed_part};

    /// The name where the path is empty, else the path, a backslash and the name.
    pub fn full_name(&self, alloc: Global) -> Result<Text, OutOfMemory>
        ensures { IfOk result (λ name. name.bytes ≡ full_name (part_of self.now)) }
    {
        if self.path.is_empty() {
            return Text::copy(alloc, self.name.bytes());
        }
        let (path, name) = (self.path.bytes(), self.name.bytes());
        let mut full = Vec::with_capacity(alloc, path.len() + 1 + name.len())?;
        full.extend_from_slice(path)?;
        full.push(b'\\')?;
        full.extend_from_slice(name)?;
        Ok(Text::of(full))
    }

    /// Whether the format allows its path and its name.
    pub(crate) fn is_allowed(&self) -> bool
        ensures { result ≡ is_allowed_part (part_of self.now) }
    {
        values::is_path(self.path.bytes()) && values::is_component_name(self.name.bytes())
    }

    /// A component of its own, equal to this one.
    pub fn copy(&self, alloc: Global) -> Result<Component, OutOfMemory>
        ensures { IfOk result (λ copy. part_of copy ≡ part_of self.now) }
    {
        Ok(Component {
            kind: self.kind,
            path: Text::copy(alloc, self.path.bytes())?,
            name: Text::copy(alloc, self.name.bytes())?,
            selectable: self.selectable,
        })
    }

    /// The component that an item of a document's list is.
    #[tactic(auto, unfolding(crate::specs::Document::part_in))]
    pub(crate) fn from_value(alloc: Global, value: &Value) -> Result<Component, MetaFault>
        ensures ok { IfOk result (λ component. part_in (view value.now) ≡ Ok (part_of component)) }
        ensures refused { IfErr result (λ fault. Tells fault (part_in (view value.now))) }
    {
        let Some(members) = value.as_object() else {
            return Err(MetaFault::WrongKind(Field::Components));
        };
        match PartValues::of(members) {
            Ok(values) => Component::from_rows(alloc, values),
            Err(name) => Err(MetaFault::UnknownName(Text::copy(alloc, name.as_bytes())?)),
        }
    }

    fn from_rows(alloc: Global, values: PartValues) -> Result<Component, MetaFault>
        ensures ok { IfOk result
            (λ component. rows_of_part (rows_seen values.entry) ≡ Ok (part_of component)) }
        ensures refused { IfErr result (λ fault. Tells fault (rows_of_part (rows_seen values.entry))) }
    {
        let kind = rows::kind_in(values.kind)?;
        let path = rows::path_in(alloc, values.path)?;
        let name = rows::component_name_in(alloc, values.name)?;
        let selectable = rows::selectable_in(values.selectable)?;
        Ok(Component {
            kind,
            path,
            name,
            selectable,
        })
    }

    /// The JSON value that is written of the component.
    #[tactic(auto, unfolding(crate::specs::Metadata::part_data))]
    pub(crate) fn to_value(&self, alloc: Global) -> Result<Value, OutOfMemory>
        requires { IsTrue (is_allowed_part (part_of self.now)) }
        ensures { IfOk result (λ value. view value ≡ part_data (part_of self.now)) }
    {
        let name = str_of(&self.name);
        let path = str_of(&self.path);
        Ok(json!(in alloc; {
            "name": name,
            "path": path,
            "selectable": self.selectable,
            "type": self.kind.number(),
        })?)
    }
}
