ghost use Rattle.std.specs.Prelude.{◌≡◌, ◌<◌, ◌++◌, [], ◌∷◌, Some, None, slice_get, IfSome, IsNone, IsTrue, ◌↔◌, OnOk, OnErr};
ghost use Rattle.std.specs.List.{Contains};
ghost use Rattle.vss_shards.specs.Journals.{most_volumes};
ghost use Rattle.vss_shards.specs.Shards.{AreParts, HasPartOf, IsTakenOut};

use crate::part::Part;
use crate::shard::Shard;
use std::alloc::Global;
use std::marker::Model;
use volume_device::Device;
use vss_names::OutOfMemory;

/// A cut that is being made: the parts of the shards that were collected and not given back yet, and its number once the journal has
/// recorded it.
#[derive(Drop)]
pub struct Draft {
    pub(crate) parts: Vec<Part>,
    pub(crate) recorded: Option<u32>,
}

impl Model for Draft {
    ghost use Rattle.vss_shards.specs.Shards.{DraftValue, AreParts};

    ghost Value = { DraftValue };

    ghost view = { λ d. record { parts = d.parts.items; recorded = d.recorded } };

    ghost invariant = { λ d. AreParts d.parts.items };
}

impl Draft {
    /// A draft of no parts, which has taken no memory.
    pub fn new(alloc: Global) -> Draft
        ensures parts { result.parts ≡ [] }
        ensures recorded { result.recorded ≡ None }
    {
        Draft {
            parts: Vec::new(alloc),
            recorded: None,
        }
    }

    /// The cut's number, from 1, once it is recorded.
    pub fn recorded(&self) -> Option<u32>
        ensures { result ≡ self.now.recorded }
    {
        self.recorded
    }

    /// Whether it has the part for which a shard is held.
    pub fn has<D: Device>(&self, shard: &Shard<D>) -> bool
        ensures { IsTrue result ↔ HasPartOf self.now shard.now }
    {
        match &shard.held {
            Some(part) => place_of(&self.parts, *part).is_some(),
            None => false,
        }
    }

    /// Adds a part.
    pub(crate) fn add(&mut self, part: Part) -> Result<(), OutOfMemory>
        requires { part.volume < most_volumes }
        ensures ok { OnOk result (self.new ≡ record { parts = self.old.parts ++ part ∷ []; recorded = self.old.recorded }) }
        ensures err { OnErr result (self.new ≡ self.old) }
    {
        self.parts.push(part)?;
        Ok(())
    }

    /// Takes a part out.
    pub(crate) fn take_out(&mut self, part: Part)
        requires { Contains self.old.parts part }
        ensures parts { IsTakenOut part self.old.parts self.new.parts }
        ensures recorded { self.new.recorded ≡ self.old.recorded }
    {
        let Some(place) = place_of(&self.parts, part) else {
            unreachable!();
        };
        self.parts.remove(place);
    }
}

/// The first place where a list has a part.
fn place_of(parts: &[Part], part: Part) -> Option<usize>
    ensures found { IfSome result (λ place. slice_get parts.now place ≡ Some part) }
    ensures none { IsNone result → ¬ Contains parts.now part }
{
    for (place, other) in parts.iter().enumerate() {
        if *other == part {
            return Some(place);
        }
    }
    None
}
