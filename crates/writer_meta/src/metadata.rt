ghost use Rattle.std.specs.Prelude.{◌≡◌, ◌≤◌, ◌↔◌, length, ok_or, Some, IfOk, IfErr, IsTrue};
ghost use Rattle.serde_json.specs.View.{view};
ghost use Rattle.writer_meta.specs.Refusal.{Tells, IsNotJson};
ghost use Rattle.writer_meta.specs.Document.{rows_of_meta, meta_in, value_of_text, metadata_in};
ghost use Rattle.writer_meta.specs.Metadata.{class_text as class_text_of};

use crate::components::Components;
use crate::field::Field;
use crate::meta_fault::MetaFault;
use crate::utf8::str_of;
use crate::{rows, unknown, values};
use serde_json::{Map, Value, put};
use std::alloc::Global;
use uuid::Uuid;
use vss_names::{Level, OutOfMemory, SourceKind, Text, Usage};

/// What a writer tells of itself.
#[derive(Debug, Drop)]
pub struct Metadata {
    /// The class id, as the number that its sixteen bytes are in network order.
    pub class: u128,
    pub name: Text,
    pub level: Level,
    pub usage: Usage,
    pub source: SourceKind,
    /// How long the writer may stand frozen, in ticks of one millisecond.
    pub freeze_timeout: u32,
    pub components: Components,
}

impl Metadata {
    ghost use Rattle.writer_meta.specs.Metadata.{meta_of, meta_data, document_text};
    ghost use Rattle.writer_meta.specs.Document.{IsAllowed};

    /// The metadata that a document is. A time-out that is not said is 60,000 ticks, and a path that is not said is
    /// empty.
    pub fn from_json(alloc: Global, text: &[u8]) -> Result<Metadata, MetaFault>
        ensures ok { IfOk result (λ metadata. metadata_in text.now ≡ Ok (meta_of metadata)) }
        ensures refused { IfErr result (λ fault. Tells fault (metadata_in text.now)) }
        ensures allowed { IfOk result (λ metadata. IsAllowed (meta_of metadata)) }
    {
        let value = value_of(alloc, text)?;
        Metadata::from_value(alloc, &value)
    }

    /// Whether the format allows the metadata, as `to_json` asks.
    #[tactic(auto, using(crate::proofs::Inversions::parts_if_ok))]
    pub fn is_allowed(&self, alloc: Global) -> Result<bool, OutOfMemory>
        ensures { IfOk result (λ allowed. IsTrue allowed ↔ IsAllowed (meta_of self.now)) }
    {
        let _class = self.class;
        if !values::is_writer_name(self.name.bytes()) {
            return Ok(false);
        }
        if !values::is_freeze_timeout(self.freeze_timeout) {
            return Ok(false);
        }
        self.components.are_allowed(alloc)
    }

    /// The document of the metadata: compact JSON with all members, in byte order of their names. `from_json` gives the
    /// metadata back.
    pub fn to_json(&self, alloc: Global) -> Result<Text, OutOfMemory>
        requires { IsAllowed (meta_of self.now) }
        ensures written { IfOk result (λ text. text.bytes ≡ document_text (meta_of self.now)) }
        ensures reads_back { IfOk result (λ text. metadata_in text.bytes ≡ Ok (meta_of self.now)) }
    {
        let value = self.to_value(alloc)?;
        let text = value.to_vec(alloc)?;
        Ok(Text::of(text))
    }

    #[tactic(auto, unfolding(crate::specs::Metadata::meta_data))]
    fn to_value(&self, alloc: Global) -> Result<Value, OutOfMemory>
        requires { IsAllowed (meta_of self.now) }
        ensures { IfOk result (λ value. view value ≡ meta_data (meta_of self.now)) }
    {
        let mut buffer = Uuid::encode_buffer();
        let class = class_text(self.class, &mut buffer);
        let components = self.components.to_value(alloc)?;
        let name = str_of(&self.name);
        let mut members = Map::new(alloc);
        put(
            &mut members,
            alloc,
            "class",
            Value::try_from_str(alloc, class)?,
        )?;
        put(&mut members, alloc, "components", components)?;
        put(
            &mut members,
            alloc,
            "freeze_timeout",
            Value::from(self.freeze_timeout),
        )?;
        put(
            &mut members,
            alloc,
            "level",
            Value::from(self.level.number()),
        )?;
        put(
            &mut members,
            alloc,
            "name",
            Value::try_from_str(alloc, name)?,
        )?;
        put(
            &mut members,
            alloc,
            "source",
            Value::from(self.source.number()),
        )?;
        put(
            &mut members,
            alloc,
            "usage",
            Value::from(self.usage.number()),
        )?;
        Ok(Value::Object(members))
    }

    /// Metadata of their own, equal to these.
    pub fn copy(&self, alloc: Global) -> Result<Metadata, OutOfMemory>
        ensures { IfOk result (λ copy. meta_of copy ≡ meta_of self.now) }
    {
        let name = Text::copy(alloc, self.name.bytes())?;
        let components = self.components.copy(alloc)?;
        Ok(Metadata {
            class: self.class,
            name,
            level: self.level,
            usage: self.usage,
            source: self.source,
            freeze_timeout: self.freeze_timeout,
            components,
        })
    }

    #[tactic(auto, unfolding(crate::specs::Document::meta_in))]
    fn from_value(alloc: Global, value: &Value) -> Result<Metadata, MetaFault>
        ensures ok { IfOk result (λ metadata. meta_in (view value.now) ≡ Ok (meta_of metadata)) }
        ensures refused { IfErr result (λ fault. Tells fault (meta_in (view value.now))) }
        ensures allowed { IfOk result (λ metadata. IsAllowed (meta_of metadata)) }
    {
        let Some(members) = value.as_object() else {
            return Err(MetaFault::WrongKind(Field::Document));
        };
        if let Some(name) = unknown::unknown_of_document(members) {
            return Err(MetaFault::UnknownName(Text::copy(alloc, name.as_bytes())?));
        }
        Metadata::from_rows(alloc, value)
    }

    fn from_rows(alloc: Global, value: &Value) -> Result<Metadata, MetaFault>
        ensures ok { IfOk result (λ metadata. rows_of_meta (view value.now) ≡ Ok (meta_of metadata)) }
        ensures refused { IfErr result (λ fault. Tells fault (rows_of_meta (view value.now))) }
        ensures allowed { IfOk result (λ metadata. IsAllowed (meta_of metadata)) }
    {
        let class = rows::class_in(value)?;
        let name = rows::name_in(alloc, value)?;
        let level = rows::level_in(value)?;
        let usage = rows::usage_in(value)?;
        let source = rows::source_in(value)?;
        let freeze_timeout = rows::freeze_timeout_in(value)?;
        let values = rows::components_in(value)?;
        let components = Components::from_values(alloc, values)?;
        Ok(Metadata {
            class,
            name,
            level,
            usage,
            source,
            freeze_timeout,
            components,
        })
    }
}

/// The JSON value of the text.
fn value_of(alloc: Global, text: &[u8]) -> Result<Value, MetaFault>
    ensures ok { IfOk result (λ value. value_of_text text.now ≡ Some (view value)) }
    ensures refused { IfErr result (λ fault. Tells fault (ok_or (value_of_text text.now) IsNotJson)) }
{
    match Value::from_slice(alloc, text) {
        Ok(value) => Ok(value),
        Err(error) => {
            if error.is_memory() {
                Err(MetaFault::OutOfMemory)
            } else {
                Err(MetaFault::NotJson)
            }
        }
    }
}

/// The class id, hyphenated and in lower case.
fn class_text(class: u128, buffer: &mut [u8]) -> &str
    requires { 36 ≤ length buffer.old }
    ensures { result.now ≡ class_text_of class }
{
    Uuid::from_u128(class).hyphenated().encode_lower(buffer)
}
