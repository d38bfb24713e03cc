ghost use Rattle.std.specs.Prelude.{◌≡◌, ◌↔◌, ◌<◌, ◌≤◌, ◌^◌, ◌++◌, ◌∷◌, [], List, Option, if◌then◌else◌, map, length, option_map, slice_get, IfOk, OnOk};
ghost use Rattle.writer_meta.specs.declared.metadata.Metadata.{Metadata};
ghost use Rattle.writer_meta.specs.Metadata.{part_of};
ghost use Rattle.component_doc.specs.Over.{is_selectable};

use crate::found::Found;
use crate::pair::Pair;
use std::alloc::Global;
use std::marker::Model;
use vss_names::OutOfMemory;
use writer_meta::{Component, Metadata};

/// The metadata of each writer, in order of registration, and none where they are not known. They are borrowed, and
/// stand where they were read. Contracts see a list.
#[derive(Debug, Drop)]
pub struct Metas<'a> {
    items: Vec<Option<&'a Metadata>>,
}

impl<'a> Model for Metas<'a> {
    ghost Value = { List (Option Metadata) };

    ghost view = { λ m. map (option_map (λ known. known.now)) m.items.items };
}

impl<'a> Metas<'a> {
    ghost use Rattle.std.specs.Prelude.{IsTrue};
    ghost use Rattle.writer_meta.specs.Metadata.{meta_of};
    ghost use Rattle.component_doc.specs.Over.{metas_of, all_have_few, AreAllowed, IsKnownAllowed, meta_at, names_selectable};
    ghost use Rattle.component_doc.specs.Selection.{found_in, found_of, known_from};

    /// These metadata, without taking memory.
    pub fn of(items: Vec<Option<&'a Metadata>>) -> Metas<'a>
        ensures { result ≡ map (option_map (λ known. known.now)) items.entry.items }
    {
        Metas { items }
    }

    /// How many writers there are.
    pub fn len(&self) -> usize
        ensures { result ≡ length self.now }
    {
        self.items.len()
    }

    /// The metadata of a writer; none where they are not known, or there is no such writer.
    pub fn of_writer(&self, writer: u32) -> Option<&'a Metadata>
        ensures { option_map (λ known. meta_of known.now) result ≡ meta_at (slice_get (metas_of self.now) writer) }
    {
        match self.items.get(writer as usize) {
            None => None,
            Some(known) => *known,
        }
    }

    /// Whether all metadata that are known are as their format allows, as the calls on component documents ask.
    pub fn are_allowed(&self, alloc: Global) -> Result<bool, OutOfMemory>
        requires { length self.now < 2 ^ 32 }
        ensures { IfOk result (λ allowed. IsTrue allowed ↔ AreAllowed (metas_of self.now)) }
    {
        for writer in 0..self.len() as u32 {
            let allowed = self.is_allowed(alloc, writer)?;
            if !allowed {
                return Ok(false);
            }
        }
        Ok(true)
    }

    fn is_allowed(&self, alloc: Global, writer: u32) -> Result<bool, OutOfMemory>
        ensures { IfOk result
            (λ allowed. IsTrue allowed ↔ IsKnownAllowed (meta_at (slice_get (metas_of self.now) writer))) }
    {
        match self.of_writer(writer) {
            None => Ok(true),
            Some(metadata) => metadata.is_allowed(alloc),
        }
    }

    /// The writers whose metadata are known, in order.
    pub(crate) fn known(&self, alloc: Global) -> Result<Vec<u32>, OutOfMemory>
        requires { length self.now < 2 ^ 32 }
        ensures { IfOk result (λ writers. writers.items ≡ known_from 0 (metas_of self.now)) }
    {
        let mut writers = Vec::new(alloc);
        for writer in 0..self.len() as u32 {
            push_if(&mut writers, self.of_writer(writer).is_some(), writer)?;
        }
        Ok(writers)
    }

    /// Whether the pair names a selectable component of a writer whose metadata are known.
    pub(crate) fn names_selectable(&self, pair: Pair) -> bool
        ensures { result ≡ names_selectable (metas_of self.now) pair }
    {
        match self.of_writer(pair.writer) {
            None => false,
            Some(metadata) => is_selectable(metadata.components.items(), pair.component),
        }
    }

    /// The component of a writer that has this full name.
    pub(crate) fn find(
        &self,
        alloc: Global,
        writer: u32,
        name: &[u8],
    ) -> Result<Option<Found>, OutOfMemory>
        requires { IsTrue (all_have_few (metas_of self.now)) }
        ensures { IfOk result
            (λ found. found ≡ found_of name.now (slice_get (metas_of self.now) writer)) }
    {
        match self.of_writer(writer) {
            None => Ok(None),
            Some(metadata) => Metas::find_in(alloc, metadata.components.items(), name),
        }
    }

    fn find_in(
        alloc: Global,
        components: &[Component],
        name: &[u8],
    ) -> Result<Option<Found>, OutOfMemory>
        requires { length components.now ≤ 1024 }
        ensures { IfOk result
            (λ found. found ≡ found_in name.now (map part_of components.now)) }
    {
        for (i, component) in components.iter().enumerate() {
            let full_name = component.full_name(alloc)?;
            if full_name.bytes() == name {
                return Ok(Some(Found {
                    component: i as u32,
                    selectable: component.selectable,
                }));
            }
        }
        Ok(None)
    }
}

fn push_if(writers: &mut Vec<u32>, really: bool, writer: u32) -> Result<(), OutOfMemory>
    ensures { OnOk result (writers.new.items ≡ writers.old.items ++ (if really then writer ∷ [] else [])) }
{
    if really {
        writers.push(writer)?;
    }
    Ok(())
}

/// Whether there is such a component, and it may be selected by itself.
fn is_selectable(components: &[Component], component: u32) -> bool
    ensures { result ≡ is_selectable (slice_get (map part_of components.now) component) }
{
    match components.get(component as usize) {
        None => false,
        Some(component) => component.selectable,
    }
}
