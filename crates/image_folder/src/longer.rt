//! Files of the folder that get blocks behind those that count, or are new.

ghost use Rattle.std.specs.Prelude.{◌≡◌, length};

use crate::device::{BlockSum, SumTable};
use crate::ended::{by_device, of_folder};
use crate::new_store::new_blocks;
use crate::own_file::own_file;
use crate::program::Program;
use crate::status::Status;
use block_data::{BLOCK, BlockBuf};
use byteorder::{ByteOrder, LittleEndian};
use std::fs::File;
use std::os::unix::fs::FileExt;
use volume_device::FileFault;

/// Such a file. What it gets does not count before the next state.
#[derive(Drop)]
pub struct Longer {
    program: Program,
    path: String,
    file: File,
}

/// The place of a block in a file.
fn place_of(index: u32) -> u64 {
    u64::from(index) * BLOCK as u64
}

/// Ends a block with these eight bytes.
fn end_with(block: &mut [u8], tail: u64)
    requires { length block.old ≡ BLOCK }
{
    LittleEndian::write_u64(&mut block[BLOCK - 8..], tail);
}

/// The last eight bytes of a block.
pub fn tail_of(block: &[u8]) -> u64
    requires { length block.now ≡ BLOCK }
{
    LittleEndian::read_u64(&block[BLOCK - 8..])
}

impl Longer {
    /// A file that is there, which gets so many blocks in all.
    pub fn grown(program: &Program, path: String, blocks: u32) -> Result<Longer, Status> {
        let (file, _) = own_file(program, path.as_str(), true, "could not be opened")?;
        let done = file.set_len(place_of(blocks));
        of_folder(program, path.as_str(), "could not be made longer", done)?;
        Ok(Longer {
            program: *program,
            path,
            file,
        })
    }

    /// A new file of so many blocks of zeros.
    pub fn new(program: &Program, path: String, blocks: u32) -> Result<Longer, Status> {
        match new_blocks(program, path.as_str(), blocks) {
            Ok(file) => Ok(Longer {
                program: *program,
                path,
                file,
            }),
            Err((call, error)) => Err(by_device(program, Some(FileFault { path, call, error }))),
        }
    }

    /// Writes a block.
    pub fn put(&self, index: u32, block: &[u8]) -> Result<(), Status> {
        let done = self.file.write_all_at(block, place_of(index));
        of_folder(
            &self.program,
            self.path.as_str(),
            "could not be written",
            done,
        )
    }

    /// Writes a block of zeros with this in its last eight bytes, and keeps its sum at a place.
    pub fn put_tail(
        &self,
        index: u32,
        tail: u64,
        sums: &SumTable,
        place: usize,
    ) -> Result<(), Status> {
        let mut block = BlockBuf::zeroed(self.program.alloc())?;
        end_with(block.bytes_mut(), tail);
        sums.put(place, BlockSum::of(block.bytes()));
        self.put(index, block.bytes())
    }

    /// Sees that all of it lasts.
    pub fn sync(&self) -> Result<(), Status> {
        of_folder(
            &self.program,
            self.path.as_str(),
            "could not be synced",
            self.file.sync_all(),
        )
    }
}
