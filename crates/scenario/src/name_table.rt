ghost use Rattle.std.specs.Prelude.{◌≡◌, ◌++◌, ◌∷◌, ◌<◌, [], None, length, IfSome, OnErr, OnOk};
ghost use Rattle.scenario.specs.Names.{place_of};

use indexmap::IndexSet;
use std::alloc::Global;
use std::marker::Model;
use vss_names::OutOfMemory;

/// The names of one kind that are taken, in order of declaration. The place of a name is found in a table.
#[derive(Drop)]
pub(crate) struct NameTable {
    names: IndexSet<Vec<u8>>,
}

impl Model for NameTable {
    ghost use Rattle.std.specs.Prelude.{List, ℕ, map};

    ghost Value = { List (List ℕ) };

    ghost view = { λ t. map (λ k. k.items) t.names.keys };
}

impl NameTable {
    /// No names, which has taken no memory.
    pub(crate) fn new(alloc: Global) -> NameTable
        ensures { result ≡ [] }
    {
        NameTable {
            names: IndexSet::new(alloc),
        }
    }

    /// The place of this name; none where it is not taken.
    pub(crate) fn place_of(&self, name: &[u8]) -> Option<usize>
        ensures place { result ≡ place_of name.now self.now }
        ensures within { IfSome result (λ i. i < length self.now) }
    {
        self.names.get_index_of(name)
    }

    /// One name more.
    pub(crate) fn add(&mut self, alloc: Global, name: &[u8]) -> Result<(), OutOfMemory>
        requires { place_of name.now self.old ≡ None }
        ensures added { OnOk result (self.new ≡ self.old ++ name.now ∷ []) }
        ensures unchanged { OnErr result (self.new ≡ self.old) }
    {
        let key = name.to_vec(alloc)?;
        self.names.insert(key)?;
        Ok(())
    }
}
