ghost use Rattle.std.specs.Prelude.{◌≡◌, ◌↔◌, List, map, IfOk, IfErr};
ghost use Rattle.writer_meta.specs.declared.component.Component.{Component};

use crate::component::Component;
use crate::distinct::first_double;
use crate::meta_fault::MetaFault;
use serde_json::Value;
use std::alloc::Global;
use std::marker::Model;
use vss_names::OutOfMemory;

const MOST_COMPONENTS: usize = 1024;

/// The components of a writer, in the order of its metadata. Contracts see a list.
#[derive(Debug, Drop)]
pub struct Components {
    items: Vec<Component>,
}

impl Model for Components {
    ghost Value = { List Component };

    ghost view = { λ c. c.items.items };
}

impl Components {
    ghost use Rattle.std.specs.Prelude.{IsTrue};
    ghost use Rattle.std.specs.List.{list_all};
    ghost use Rattle.serde_json.specs.Data.{array};
    ghost use Rattle.serde_json.specs.View.{view, items_view};
    ghost use Rattle.writer_meta.specs.Document.{is_allowed_part, AreAllowedParts, parts_in, list_of_parts};
    ghost use Rattle.writer_meta.specs.Metadata.{parts_data, part_of};
    ghost use Rattle.writer_meta.specs.Refusal.{Tells};

    /// These components, without taking memory.
    pub fn of(items: Vec<Component>) -> Components
        ensures { result ≡ items.items }
    {
        Components { items }
    }

    /// The components, in the order of the document.
    pub fn items(&self) -> &[Component]
        ensures { result.now ≡ self.now }
    {
        &self.items
    }

    /// Components of their own, equal to these.
    pub fn copy(&self, alloc: Global) -> Result<Components, OutOfMemory>
        ensures { IfOk result (λ copy. map part_of copy ≡ map part_of self.now) }
    {
        Ok(Components {
            items: Components::copies_of(alloc, &self.items)?,
        })
    }

    /// Whether the format allows them: their number, each path and name, and that no two have one full name.
    pub(crate) fn are_allowed(&self, alloc: Global) -> Result<bool, OutOfMemory>
        ensures { IfOk result (λ allowed. IsTrue allowed ↔ AreAllowedParts (map part_of self.now)) }
    {
        if self.items.len() > MOST_COMPONENTS {
            return Ok(false);
        }
        if !Components::each_part_is_allowed(&self.items) {
            return Ok(false);
        }
        let double = first_double(alloc, &self.items)?;
        Ok(double.is_none())
    }

    #[tactic(auto, using(crate::proofs::Inversions::all_parts))]
    fn each_part_is_allowed(components: &[Component]) -> bool
        ensures { result ≡ list_all is_allowed_part (map part_of components.now) }
    {
        Components::each_is_allowed(components)
    }

    fn each_is_allowed(components: &[Component]) -> bool
        ensures { result ≡ list_all (λ (c : Component). is_allowed_part (part_of c)) components.now }
    {
        components.iter().all(|component| component.is_allowed())
    }

    /// The components that the items of a document's list are.
    #[tactic(auto, using(crate::proofs::Lists::too_many, crate::proofs::Lists::few))]
    pub(crate) fn from_values(alloc: Global, values: &[Value]) -> Result<Components, MetaFault>
        ensures ok { IfOk result
            (λ components. list_of_parts (items_view values.now) ≡ Ok (map part_of components)) }
        ensures refused { IfErr result (λ fault. Tells fault (list_of_parts (items_view values.now))) }
    {
        if values.len() > MOST_COMPONENTS {
            return Err(MetaFault::TooMany);
        }
        let components = Components::each_value(alloc, values)?;
        match first_double(alloc, &components) {
            Ok(None) => Ok(Components::of(components)),
            Ok(Some(name)) => Err(MetaFault::DoubleComponent(name)),
            Err(_) => Err(MetaFault::OutOfMemory),
        }
    }

    fn each_value(alloc: Global, values: &[Value]) -> Result<Vec<Component>, MetaFault>
        ensures ok { IfOk result
            (λ components. parts_in (items_view values.now) ≡ Ok (map part_of components.items)) }
        ensures refused { IfErr result (λ fault. Tells fault (parts_in (items_view values.now))) }
    {
        let mut components = Vec::with_capacity(alloc, values.len())?;
        for value in values {
            let component = Component::from_value(alloc, value)?;
            components.push(component)?;
        }
        Ok(components)
    }

    #[tactic(auto, using(crate::proofs::Lists::copied_more, crate::proofs::Lists::copied_all))]
    fn copies_of(alloc: Global, components: &[Component]) -> Result<Vec<Component>, OutOfMemory>
        ensures { IfOk result (λ copies. map part_of copies.items ≡ map part_of components.now) }
    {
        let mut copies = Vec::with_capacity(alloc, components.len())?;
        for component in components {
            let copy = component.copy(alloc)?;
            copies.push(copy)?;
        }
        Ok(copies)
    }

    /// The JSON list that is written of the components.
    pub(crate) fn to_value(&self, alloc: Global) -> Result<Value, OutOfMemory>
        requires { IsTrue (list_all is_allowed_part (map part_of self.now)) }
        ensures { IfOk result (λ value. view value ≡ array (parts_data (map part_of self.now))) }
    {
        let values = Components::values_of(alloc, &self.items)?;
        Ok(Value::Array(values))
    }

    fn values_of(alloc: Global, components: &[Component]) -> Result<Vec<Value>, OutOfMemory>
        requires { IsTrue (list_all is_allowed_part (map part_of components.now)) }
        ensures { IfOk result
            (λ values. items_view values.items ≡ parts_data (map part_of components.now)) }
    {
        let mut values = Vec::with_capacity(alloc, components.len())?;
        for component in components {
            let value = component.to_value(alloc)?;
            values.push(value)?;
        }
        Ok(values)
    }
}
