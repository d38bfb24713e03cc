ghost use Rattle.std.specs.Prelude.{◌≡◌, ℕ, List, [], length, IfOk, IsTrue, ◌↔◌};

use crate::out_of_memory::OutOfMemory;
use std::alloc::Global;
use std::marker::Model;

/// An owned list of numbers: writers, volumes, the calls that are to fail. Contracts see it as a list.
#[derive(Debug, Drop)]
pub struct Numbers {
    items: Vec<u32>,
}

impl Model for Numbers {
    ghost Value = { List ℕ };

    ghost view = { λ n. n.items.items };
}

impl Numbers {
    /// No numbers, which has taken no memory.
    pub fn new(alloc: Global) -> Numbers
        ensures { result ≡ [] }
    {
        Numbers {
            items: Vec::new(alloc),
        }
    }

    /// These numbers, without taking memory.
    pub fn of(items: Vec<u32>) -> Numbers
        ensures { result ≡ items.items }
    {
        Numbers { items }
    }

    /// A list of its own with a copy of these numbers.
    pub fn copy(alloc: Global, items: &[u32]) -> Result<Numbers, OutOfMemory>
        ensures { IfOk result (λ numbers. numbers ≡ items.now) }
    {
        Ok(Numbers {
            items: items.to_vec(alloc)?,
        })
    }

    /// Lends the numbers.
    pub fn items(&self) -> &[u32]
        ensures { result.now ≡ self.now }
    {
        &self.items
    }

    /// How many numbers there are.
    pub fn len(&self) -> usize
        ensures { result ≡ length self.now }
    {
        self.items.len()
    }

    /// Whether there are no numbers.
    pub fn is_empty(&self) -> bool
        ensures { IsTrue result ↔ (self.now ≡ []) }
    {
        self.items.is_empty()
    }

    /// The numbers, without taking memory.
    pub fn into_vec(self) -> Vec<u32>
        ensures { result.items ≡ self }
    {
        self.items
    }
}
