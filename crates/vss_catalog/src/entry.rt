use std::alloc::Global;
use std::marker::Model;
use vss_names::{Numbers, OutOfMemory, Text};

/// What a catalog says of one volume.
#[derive(Debug, Drop)]
pub struct Entry {
    name: Text,
    blocks: u32,
    images: Numbers,
}

impl Model for Entry {
    ghost use Rattle.std.specs.Prelude.{◌≤◌, length};
    ghost use Rattle.vss_catalog.specs.Entries.{EntryValue};

    ghost Value = { EntryValue };

    ghost view = { λ e. record { name = e.name.bytes; blocks = e.blocks; images = e.images } };

    ghost invariant = { λ e. (length e.name.bytes ≤ 32) × (length e.images ≤ 512) };
}

impl Entry {
    ghost use Rattle.std.specs.Prelude.{◌≡◌, ◌≤◌, length, IfOk};
    ghost use Rattle.vss_catalog.specs.Written.{size_of};

    /// The entry of a volume, with copies of its name and of the sets of its images.
    pub fn of(
        alloc: Global,
        name: &[u8],
        blocks: u32,
        images: Numbers,
    ) -> Result<Entry, OutOfMemory>
        requires short { length name.now ≤ 32 }
        requires few { length images ≤ 512 }
        ensures { IfOk result (λ entry. entry ≡ record { name = name.now; blocks = blocks; images = images }) }
    {
        Ok(Entry {
            name: Text::copy(alloc, name)?,
            blocks,
            images,
        })
    }

    /// The volume's name, of at most 32 bytes.
    pub fn name(&self) -> &Text
        ensures name { result.now.bytes ≡ self.now.name }
        ensures short { length result.now.bytes ≤ 32 }
    {
        &self.name
    }

    /// Gives the volume so many blocks.
    pub fn resize(&mut self, blocks: u32)
        ensures { self.new ≡ record self.old { blocks = blocks } }
    {
        self.blocks = blocks;
    }

    /// How many blocks of 16,384 bytes the volume has.
    pub fn blocks(&self) -> u32
        ensures { result ≡ self.now.blocks }
    {
        self.blocks
    }

    /// The sets of the volume's images, oldest first.
    pub fn images(&self) -> &[u32]
        ensures images { result.now ≡ self.now.images }
        ensures few { length result.now ≤ 512 }
    {
        self.images.items()
    }

    /// How many bytes it has.
    pub fn size(&self) -> usize
        ensures size { result ≡ size_of self.now }
        ensures most { result ≤ 2092 }
    {
        12 + self.name.len() + 4 * self.images.len()
    }
}
