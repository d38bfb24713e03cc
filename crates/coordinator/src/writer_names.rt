ghost use Rattle.std.specs.Prelude.{◌≡◌, ◌==◌, ◌&&◌, ◌++◌, ◌∷◌, ◌<◌, ◌≤◌, [], None, Some, length, option_map, slice_get, IfSome, OnErr, OnOk};
ghost use Rattle.coordinator.specs.Coordinator.{Registered, any_class, class_at, place_of};
ghost use Rattle.set_agenda.specs.Agenda.{is_among};

use crate::writer_rows::WriterRows;
use indexmap::IndexMap;
use set_agenda::WriterSet;
use std::alloc::Global;
use std::marker::Model;
use vss_names::OutOfMemory;
use writer_state::WriterRow;

/// The names of the registered writers, each with the writer's class. A writer's number is the place of its name.
#[derive(Drop)]
pub struct WriterNames {
    classes: IndexMap<Vec<u8>, u128>,
}

impl Model for WriterNames {
    ghost use Rattle.std.specs.Prelude.{List, map};
    ghost use Rattle.coordinator.specs.Coordinator.{Registered, registered};

    ghost Value = { List Registered };

    ghost view = { λ n. map registered n.classes.entries };
}

impl WriterNames {
    /// No names, which has taken no memory.
    pub fn new(alloc: Global) -> WriterNames
        ensures { result ≡ [] }
    {
        WriterNames {
            classes: IndexMap::new(alloc),
        }
    }

    /// How many names there are.
    pub fn len(&self) -> usize
        ensures { result ≡ length self.now }
    {
        self.classes.len()
    }

    /// The number of the writer with this name; none where it is not registered.
    pub fn place_of(&self, name: &[u8]) -> Option<usize>
        ensures place { result ≡ place_of name.now self.now }
        ensures within { IfSome result (λ i. i < length self.now) }
    {
        self.classes.get_index_of(name)
    }

    /// The class of a writer.
    pub fn class(&self, writer: u32) -> u128
        requires { writer < length self.now }
        ensures { Some result ≡ option_map (λ r. r.class) (slice_get self.now writer) }
    {
        match self.classes.get_index(writer as usize) {
            Some((_, class)) => *class,
            None => 0,
        }
    }

    /// One writer more, with its row.
    pub fn add(
        &mut self,
        alloc: Global,
        name: &[u8],
        class: u128,
        rows: &mut WriterRows,
        row: WriterRow,
    ) -> Result<(), OutOfMemory>
        requires { place_of name.now self.old ≡ None }
        ensures added { OnOk result (self.new ≡ self.old ++ record { name = name.now; class = class } ∷ []) }
        ensures row { OnOk result (rows.new ≡ rows.old ++ row ∷ []) }
        ensures names_unchanged { OnErr result (self.new ≡ self.old) }
        ensures rows_unchanged { OnErr result (rows.new ≡ rows.old) }
    {
        let key = name.to_vec(alloc)?;
        self.classes.reserve(1)?;
        rows.push(row)?;
        let _ = self.classes.insert(key, class);
        Ok(())
    }
}

/// Whether one of these writers is of the writer's class.
pub fn has_class_of(names: &WriterNames, writers: &WriterSet, writer: u32) -> bool
    requires few { length names.now ≤ 64 }
    requires known { writer < length names.now }
    ensures { result ≡ any_class (λ x. is_among x writers.now) 0 (class_at names.now writer) names.now }
{
    let class = names.class(writer);
    let mut number = 0;
    while number < names.len() {
        let other = number as u32;
        if is_one(writers.contains(other), names.class(other), class) {
            return true;
        }
        number += 1;
    }
    false
}

fn is_one(passes: bool, class: u128, sought: u128) -> bool
    ensures { result ≡ (passes && (class == sought)) }
{
    passes && class == sought
}
