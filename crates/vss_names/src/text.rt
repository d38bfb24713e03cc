ghost use Rattle.std.specs.Prelude.{◌≡◌, ◌+◌, ◌-◌, ◌≤◌, ◌++◌, [], length, take, vec_len, vec_capacity, IsOk, IsTrue, IfOk, OnOk, OnErr, ◌↔◌};
ghost use Rattle.vss_names.specs.Names.{TextValue};

use crate::out_of_memory::OutOfMemory;
use std::alloc::Global;
use std::marker::Model;

/// An owned list of bytes: a name, a document, a report. Contracts see its bytes and its spare, the number of
/// bytes for which it has room beside them.
#[derive(Debug, Drop)]
pub struct Text {
    bytes: Vec<u8>,
}

impl Model for Text {
    ghost Value = { TextValue };

    ghost view = { λ t. record { bytes = t.bytes.items; spare = vec_capacity t.bytes - vec_len t.bytes } };
}

impl Text {
    /// A text of no bytes, which has taken no memory.
    pub fn new(alloc: Global) -> Text
        ensures { result.bytes ≡ [] }
    {
        Text {
            bytes: Vec::new(alloc),
        }
    }

    /// A text of these bytes, without taking memory.
    pub fn of(bytes: Vec<u8>) -> Text
        ensures bytes { result.bytes ≡ bytes.items }
        ensures spare { result.spare ≡ vec_capacity bytes - vec_len bytes }
    {
        Text { bytes }
    }

    /// A text of its own with a copy of these bytes.
    pub fn copy(alloc: Global, bytes: &[u8]) -> Result<Text, OutOfMemory>
        ensures { IfOk result (λ text. text.bytes ≡ bytes.now) }
    {
        Ok(Text {
            bytes: bytes.to_vec(alloc)?,
        })
    }

    /// Makes the spare at least `more`.
    pub fn reserve(&mut self, more: usize) -> Result<(), OutOfMemory>
        ensures bytes { self.new.bytes ≡ self.old.bytes }
        ensures ok { OnOk result (more ≤ self.new.spare) }
        ensures err { OnErr result (self.new ≡ self.old) }
        ensures succeeds { more ≤ self.old.spare → IsOk result }
        ensures spare { self.old.spare ≤ self.new.spare }
    {
        self.bytes.reserve(more)?;
        Ok(())
    }

    /// Appends these bytes.
    pub fn add(&mut self, more: &[u8]) -> Result<(), OutOfMemory>
        ensures ok { OnOk result (self.new.bytes ≡ self.old.bytes ++ more.now) }
        ensures err { OnErr result (self.new ≡ self.old) }
        ensures succeeds { length more.now ≤ self.old.spare → IsOk result }
        ensures spare { self.old.spare ≤ self.new.spare + length more.now }
    {
        self.bytes.reserve(more.len())?;
        let _ = self.bytes.extend_from_slice(more);
        Ok(())
    }

    /// Takes all bytes from the `len`th on away; they become spare.
    pub fn truncate(&mut self, len: usize)
        ensures bytes { self.new.bytes ≡ take len self.old.bytes }
        ensures spare { self.new.spare + length self.new.bytes ≡ self.old.spare + length self.old.bytes }
    {
        self.bytes.truncate(len);
    }

    /// Lends the bytes.
    pub fn bytes(&self) -> &[u8]
        ensures { result.now ≡ self.now.bytes }
    {
        &self.bytes
    }

    /// How many bytes there are.
    pub fn len(&self) -> usize
        ensures { result ≡ length self.now.bytes }
    {
        self.bytes.len()
    }

    /// Whether there are no bytes.
    pub fn is_empty(&self) -> bool
        ensures { IsTrue result ↔ (self.now.bytes ≡ []) }
    {
        self.bytes.is_empty()
    }

    /// The bytes, without taking memory.
    pub fn into_vec(self) -> Vec<u8>
        ensures bytes { result.items ≡ self.bytes }
        ensures spare { vec_capacity result - vec_len result ≡ self.spare }
    {
        self.bytes
    }
}
