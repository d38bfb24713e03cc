ghost use Rattle.std.specs.Prelude.{◌≡◌, ◌≤◌, [], length, IfOk};

use std::alloc::Global;
use std::marker::Model;
use vss_names::{MOST_IMAGES, OutOfMemory};

/// The sets that a step listed. Contracts see it as a list; memory for the most that there can be is taken by `new`.
#[derive(Debug, Drop)]
pub(crate) struct ListedSets {
    items: Vec<u32>,
}

impl Model for ListedSets {
    ghost use Rattle.std.specs.Prelude.{◌≤◌, ℕ, List, length, vec_capacity};

    ghost Value = { List ℕ };

    ghost view = { λ l. l.items.items };

    ghost invariant = { λ l. (512 ≤ vec_capacity l.items) × (length l.items.items ≤ 512) };
}

impl ListedSets {
    pub(crate) fn new(alloc: Global) -> Result<ListedSets, OutOfMemory>
        ensures { IfOk result (λ none. none ≡ []) }
    {
        Ok(ListedSets {
            items: Vec::with_capacity(alloc, MOST_IMAGES)?,
        })
    }

    pub(crate) fn items(&self) -> &[u32]
        ensures sets { result.now ≡ self.now }
        ensures few { length result.now ≤ 512 }
    {
        &self.items
    }

    pub(crate) fn clear(&mut self)
        ensures { self.new ≡ [] }
    {
        self.items.clear();
    }

    /// These sets in place of those before.
    pub(crate) fn list(&mut self, sets: &[u32])
        requires { length sets.now ≤ 512 }
        ensures { self.new ≡ sets.now }
    {
        self.items.clear();
        let _ = self.items.extend_from_slice(sets);
    }
}
