ghost use Rattle.std.specs.Prelude.{◌≡◌, ◌<◌, ◌≤◌, ◌+◌, ◌++◌, ◌∷◌, [], Ok, length, vec_len, IfOk, IfErr, OnOk};
ghost use Rattle.scenario.specs.Fields.{IsPart};
ghost use Rattle.scenario.specs.Drafts.{IsDraft, IsEntry, saying_in};
ghost use Rattle.scenario.specs.Built.{value_of, place_after, with_saying, with_value, IsRefusedBy, IsValue, Grows};

use crate::draft::Draft;
use crate::entries::are_printable;
use crate::entry::Entry;
use crate::reason::Reason;
use crate::refused::Refused;
use crate::span::Span;
use crate::value::Value;
use crate::value_lines::entry_of_value;
use std::alloc::Global;
use vss_names::OutOfMemory;

/// The most bytes of all names, with a newline for each.
const MOST_SOURCE: usize = 4_000_000_000;

/// What a builder was given so far.
#[derive(Drop)]
pub(crate) struct Given {
    /// The names, each with a newline.
    pub source: Vec<u8>,
    /// The number of the next line.
    pub number: u32,
    pub draft: Draft,
}

/// Where these bytes will be in a source, if they may be appended to it.
#[tactic(auto, unfolding(crate::specs::Built::place_after))]
fn place_after(source: &[u8], bytes: &[u8]) -> Result<Span, Reason>
    requires { length source.now ≤ 4000000000 }
    ensures value { result ≡ place_after source.now bytes.now }
    ensures room { IfOk result (λ span. length source.now + length bytes.now + 1 ≤ 4000000000) }
    ensures part { IfOk result (IsPart (length source.now + length bytes.now + 1)) }
{
    if !are_printable(bytes) {
        return Err(Reason::BadByte);
    }
    if source.len() + bytes.len() + 1 > MOST_SOURCE {
        return Err(Reason::TooMany);
    }
    let start = source.len() as u32;
    let end = start + bytes.len() as u32;
    Ok(Span { start, end })
}

/// Appends these bytes and a newline.
fn push_line(source: &mut Vec<u8>, bytes: &[u8]) -> Result<(), OutOfMemory>
    requires { vec_len source.old + length bytes.now + 1 ≤ 4000000000 }
    ensures { OnOk result (source.new.items ≡ source.old.items ++ bytes.now ++ 10 ∷ []) }
{
    source.extend_from_slice(bytes)?;
    source.push(b'\n')?;
    Ok(())
}

impl Given {
    /// Takes in what a line says.
    fn enter(&mut self, alloc: Global, entry: Entry) -> Result<(), OutOfMemory>
        requires draft { IsDraft self.old.source.items self.old.draft }
        requires few { self.old.number < 4294967295 }
        requires entry { IsEntry self.old.source.items self.old.draft entry }
        ensures { OnOk result (value_of self.new
            ≡ with_saying (value_of self.old) (saying_in entry)) }
    {
        self.draft.add(alloc, &self.source, entry)?;
        self.number += 1;
        Ok(())
    }

    /// Takes in what a value says, and the name that it has.
    pub(crate) fn add(&mut self, alloc: Global, bytes: &[u8], value: Value) -> Result<(), Refused>
        requires grows { Grows self.old }
        requires value { IsValue value }
        ensures grows { OnOk result (Grows self.new) }
        ensures built { OnOk result (with_value (value_of self.old) bytes.now value
            ≡ Ok (value_of self.new)) }
        ensures refused { IfErr result (IsRefusedBy (value_of self.old) bytes.now value) }
    {
        let line = self.number;
        let name = match place_after(&self.source, bytes) {
            Ok(name) => name,
            Err(reason) => return Err(Refused::Line { line, reason }),
        };
        if push_line(&mut self.source, bytes).is_err() {
            return Err(Refused::OutOfMemory);
        }
        let entry = match entry_of_value(&self.source, &self.draft, line, name, value) {
            Ok(entry) => entry,
            Err(cause) => {
                let reason = cause.reason;
                return Err(Refused::Line { line, reason });
            }
        };
        match self.enter(alloc, entry) {
            Ok(()) => Ok(()),
            Err(_) => Err(Refused::OutOfMemory),
        }
    }
}
