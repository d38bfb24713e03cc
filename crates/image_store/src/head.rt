ghost use Rattle.std.specs.Prelude.{◌≡◌, ◌<◌, ◌≤◌, ◌+◌, ◌++◌, ◌∷◌, [], Some, true, drop, length, slice_get, slice_set, IfErr, IfOk, IfSome, IsNone, OnErr, OnOk};
ghost use Rattle.std.specs.List.{remove};
ghost use Rattle.byteorder.specs.Endian.{little_number};
ghost use Rattle.vss_catalog.specs.Written.{number_bytes};
ghost use Rattle.vss_catalog.specs.Entries.{IsCatalog, EntryValue};
ghost use Rattle.vss_names.specs.Names.{is_name};
ghost use Rattle.image_store.specs.Head.{bytes_of_head, head_bytes};
ghost use Rattle.image_store.specs.Opening.{IsHeadFault};

use crate::open_fault::OpenFault;
use byteorder::{ByteOrder, LittleEndian};
use std::alloc::Global;
use std::marker::Model;
use vss_catalog::Catalog;
use vss_names::{OutOfMemory, Text};

/// The letters with which a head begins.
const LETTERS: &[u8; 8] = b"VSSIMG01";

/// How many bytes are before the catalog.
const FRONT: usize = 16;

/// The head of a state: the last set that was given, and the catalog of the volumes. Contracts see both.
#[derive(Drop)]
pub struct Head {
    last: u32,
    catalog: Catalog,
}

impl Model for Head {
    ghost use Rattle.image_store.specs.Head.{HeadValue};
    ghost use Rattle.vss_catalog.specs.Entries.{IsCatalog};

    ghost Value = { HeadValue };

    ghost view = { λ h. record { last = h.last; entries = h.catalog } };

    ghost invariant = { λ h. IsCatalog h.catalog };
}

/// Appends a number's four bytes.
#[tactic(auto, unfolding(vss_catalog::specs::Written::number_bytes))]
fn add_number(text: &mut Text, number: u32) -> Result<(), OutOfMemory>
    ensures { OnOk result (text.new.bytes ≡ text.old.bytes ++ number_bytes number) }
{
    let mut word = [0; 4];
    LittleEndian::write_u32(&mut word, number);
    text.add(&word)
}

/// The bytes of a head.
#[tactic(auto, unfolding(crate::specs::Head::head_bytes))]
pub fn bytes_with(alloc: Global, last: u32, catalog: &Catalog) -> Result<Text, OutOfMemory>
    requires { IsCatalog catalog.now }
    ensures { IfOk result (λ text. text.bytes ≡ head_bytes last catalog.now) }
{
    let catalog = catalog.encode(alloc)?;
    if catalog.len() > u32::MAX as usize {
        return Err(OutOfMemory);
    }
    let mut text = Text::copy(alloc, LETTERS.as_slice())?;
    add_number(&mut text, last)?;
    add_number(&mut text, catalog.len() as u32)?;
    text.add(catalog.bytes())?;
    Ok(text)
}

impl Head {
    /// How many bytes the head has with which bytes begin, by its own numbers; None where they are too few to say it.
    pub fn length_in(bytes: &[u8]) -> Option<usize>
        ensures front { IfSome result (λ n. 16 ≤ n) }
        ensures within { IfSome result (λ n. n ≤ length bytes.now) }
        ensures said { IfSome result (λ n. n ≡ 16 + little_number 4 (drop 12 bytes.now)) }
        ensures cut_off { IsNone result → length bytes.now < 16 + little_number 4 (drop 12 bytes.now) }
    {
        if bytes.len() < FRONT {
            return None;
        }
        let catalog = LittleEndian::read_u32(&bytes[12..]) as usize;
        if bytes.len() - FRONT < catalog {
            return None;
        }
        Some(FRONT + catalog)
    }

    /// The head that these bytes are.
    pub fn read(alloc: Global, bytes: &[u8]) -> Result<Head, OpenFault>
        ensures ok { IfOk result (λ head. bytes_of_head head ≡ bytes.now) }
        ensures allowed { IfOk result (λ head. IsCatalog head.entries) }
        ensures refused { IfErr result (IsHeadFault bytes.now) }
    {
        let found = bytes.len() as u64;
        let Some(length) = Head::length_in(bytes) else {
            return Err(OpenFault::Length { found });
        };
        if length < bytes.len() {
            return Err(OpenFault::Length { found });
        }
        if !bytes.starts_with(LETTERS.as_slice()) {
            return Err(OpenFault::Letters);
        }
        Ok(Head {
            last: LittleEndian::read_u32(&bytes[8..]),
            catalog: Catalog::decode(alloc, &bytes[FRONT..])?,
        })
    }

    /// The last set that was given, 0 where none was.
    pub fn last(&self) -> u32
        ensures { result ≡ self.now.last }
    {
        self.last
    }

    /// The catalog of the volumes.
    pub fn catalog(&self) -> &Catalog
        ensures entries { result.now ≡ self.now.entries }
        ensures allowed { IsCatalog self.now.entries }
    {
        &self.catalog
    }

    /// Gives a volume so many blocks.
    pub fn resize(&mut self, volume: u32, blocks: u32)
        requires volume { volume < length self.old.entries }
        requires some { 0 < blocks }
        requires few { blocks ≤ 65536 }
        ensures entries { (e : EntryValue) → slice_get self.old.entries volume ≡ Some e
            → self.new.entries ≡ slice_set self.old.entries volume (record e { blocks = blocks }) }
        ensures last { self.new.last ≡ self.old.last }
    {
        self.catalog.resize(volume, blocks);
    }

    /// Adds a volume without images behind the others.
    pub fn add(&mut self, alloc: Global, name: &[u8], blocks: u32) -> Result<(), OutOfMemory>
        requires volumes { length self.old.entries < 128 }
        requires named { is_name name.now ≡ true }
        requires short { length name.now ≤ 32 }
        requires some { 0 < blocks }
        requires few { blocks ≤ 65536 }
        ensures entries { OnOk result (self.new.entries ≡ self.old.entries ++ record { name = name.now; blocks = blocks; images = [] } ∷ []) }
        ensures last { self.new.last ≡ self.old.last }
        ensures same { OnErr result (self.new ≡ self.old) }
    {
        self.catalog.add(alloc, name, blocks)
    }

    /// Takes a volume away, which is not the only one.
    pub fn remove(&mut self, volume: u32)
        requires volume { volume < length self.old.entries }
        requires others { 1 < length self.old.entries }
        ensures entries { self.new.entries ≡ remove self.old.entries volume }
        ensures last { self.new.last ≡ self.old.last }
    {
        self.catalog.remove(volume);
    }

    /// Its bytes.
    pub fn bytes(&self, alloc: Global) -> Result<Text, OutOfMemory>
        ensures { IfOk result (λ text. text.bytes ≡ bytes_of_head self.now) }
    {
        bytes_with(alloc, self.last, &self.catalog)
    }
}
