//! Volumes that a call left in transit. A sync of one may have failed there, and a block that is read may then be in memory alone.

ghost use Rattle.std.specs.Prelude.{◌≡◌, ◌<◌, length};

use crate::ended::of_folder;
use crate::naming::name_in;
use crate::opened::Opened;
use crate::own_file::own_file;
use crate::progress::Progress;
use crate::status::Status;
use block_data::{BLOCK, BlockBuf};
use std::fs::File;
use std::io;
use std::os::unix::fs::FileExt;

/// Writes each block of a file anew as it is read, so many, and sees that all of it lasts.
fn write_anew(
    file: &File,
    block: &mut [u8],
    progress: &mut Progress,
    blocks: u32,
) -> io::Result<()> {
    for index in 0..blocks {
        let place = u64::from(index) * BLOCK as u64;
        file.read_exact_at(block, place)?;
        file.write_all_at(block, place)?;
        progress.step(1);
    }
    file.sync_all()
}

impl Opened {
    /// Writes a volume anew, past its images: they show what they did.
    fn settle_volume(&self, volume: u32) -> Result<(), Status>
        requires { volume < length self.now.store.group.area.volumes }
    {
        let (program, blocks) = (&self.folder.program, self.store.blocks(volume));
        let path = self.folder.path_of_volume(name_in(&self.store, volume))?;
        let (file, _) = own_file(program, path.as_str(), true, "could not be opened")?;
        let mut block = BlockBuf::zeroed(program.alloc())?;
        let mut progress = Progress::new(program, "settled", blocks);
        let done = write_anew(&file, block.bytes_mut(), &mut progress, blocks);
        progress.clear();
        of_folder(program, path.as_str(), "could not be written", done)
    }

    /// Whether a volume is in transit.
    fn is_any_in_transit(&self) -> bool {
        for volume in 0..self.store.volumes() {
            if self.is_in_transit(volume) {
                return true;
            }
        }
        false
    }

    /// Sees that the blocks of all volumes in transit last as they are read.
    fn settle_volumes(&self) -> Result<(), Status> {
        for volume in 0..self.store.volumes() {
            if self.is_in_transit(volume) {
                self.settle_volume(volume)?;
            }
        }
        Ok(())
    }

    /// Sees that the blocks of all volumes in transit last as they are read. They are in transit until this call is done.
    pub fn settle(&mut self) -> Result<(), Status>
        ensures { self.new.store ≡ self.old.store }
    {
        self.is_torn = self.is_any_in_transit();
        self.settle_volumes()
    }
}
