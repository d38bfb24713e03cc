//! Space of slots that are in no use comes back: the area is cut behind its last slot in use, and gets its length again. What was there is a hole then.

ghost use Rattle.std.specs.Prelude.{◌≤◌, length};
ghost use Rattle.image_folder.specs.Parts.{AreFree, IsUsedBefore};

use crate::ended::of_folder;
use crate::folder::{AREA, Folder};
use crate::front::rows_of;
use crate::own_file::own_file;
use crate::state::{Row, State};
use crate::status::Status;
use block_data::BLOCK;
use std::alloc::Global;
use std::fs::File;
use std::io;

/// How many slots there are up to the last in use.
pub fn used_up_to(rows: &[Row]) -> usize
    ensures within { result ≤ length rows.now }
    ensures free { AreFree rows.now result (length rows.now) }
    ensures used { IsUsedBefore rows.now result }
{
    let mut used = 0;
    for slot in 0..rows.len() {
        if rows[slot].set != 0 {
            used = slot + 1;
        }
    }
    used
}

/// How many blocks the area of a state has up to its last slot in use.
pub fn blocks_in_use(alloc: Global, state: &State) -> Result<u32, Status> {
    let used = u32::try_from(used_up_to(&rows_of(alloc, state)?)).unwrap_or(u32::MAX);
    Ok(state.front_blocks.saturating_add(used))
}

/// Gives a file a length of so many blocks, and sees that this lasts.
pub fn set_blocks(file: &File, blocks: u32) -> io::Result<()> {
    file.set_len(u64::from(blocks) * BLOCK as u64)?;
    file.sync_all()
}

/// Gives the space of a file behind so many blocks back. Up to a loss of power in between it may end there.
fn make_hole(file: &File, from: u32, blocks: u32) -> io::Result<()> {
    file.set_len(u64::from(from) * BLOCK as u64)?;
    set_blocks(file, blocks)
}

impl Folder {
    /// Gives the space back of all slots behind the last in use, by the state that was committed. The marker that is there lets the area end there.
    pub fn give_back(&self) -> Result<(), Status> {
        let (program, state) = (&self.program, State::read(self)?);
        let (used, blocks) = (blocks_in_use(program.alloc(), &state)?, state.area_blocks);
        if used >= blocks {
            return Ok(());
        }
        let path = self.path_of(AREA)?;
        let (file, _) = own_file(program, path.as_str(), true, "could not be opened")?;
        let done = make_hole(&file, used, blocks);
        of_folder(program, path.as_str(), "could not be resized", done)
    }
}
