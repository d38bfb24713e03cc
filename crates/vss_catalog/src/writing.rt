//! The bytes of a catalog, appended part by part.

ghost use Rattle.std.specs.Prelude.{◌≡◌, ◌++◌, ◌<◌, ◌^◌, length, OnOk};
ghost use Rattle.std.specs.List.{flat_map};
ghost use Rattle.vss_catalog.specs.Written.{number_bytes, entry_bytes};

use crate::entry::Entry;
use byteorder::{ByteOrder, LittleEndian};
use vss_names::{OutOfMemory, Text};

/// Appends a number's four bytes.
#[tactic(auto, unfolding(crate::specs::Written::number_bytes))]
pub fn push_number(text: &mut Text, number: u32) -> Result<(), OutOfMemory>
    ensures { OnOk result (text.new.bytes ≡ text.old.bytes ++ number_bytes number) }
{
    let mut word = [0; 4];
    LittleEndian::write_u32(&mut word, number);
    text.add(&word)
}

/// Appends these numbers.
fn push_numbers(text: &mut Text, numbers: &[u32]) -> Result<(), OutOfMemory>
    ensures { OnOk result (text.new.bytes ≡ text.old.bytes ++ flat_map number_bytes numbers.now) }
{
    for number in numbers {
        push_number(text, *number)?;
    }
    Ok(())
}

/// Appends an entry.
#[tactic(auto, unfolding(crate::specs::Written::entry_bytes))]
fn push_entry(text: &mut Text, entry: &Entry) -> Result<(), OutOfMemory>
    ensures { OnOk result (text.new.bytes ≡ text.old.bytes ++ entry_bytes entry.now) }
{
    let name = entry.name();
    let images = entry.images();
    push_number(text, name.len() as u32)?;
    text.add(name.bytes())?;
    push_number(text, entry.blocks())?;
    push_number(text, images.len() as u32)?;
    push_numbers(text, images)
}

/// Appends these entries.
pub fn push_entries(text: &mut Text, entries: &[Entry]) -> Result<(), OutOfMemory>
    ensures { OnOk result (text.new.bytes ≡ text.old.bytes ++ flat_map entry_bytes entries.now) }
{
    for entry in entries {
        push_entry(text, entry)?;
    }
    Ok(())
}
