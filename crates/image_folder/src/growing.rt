//! `grow`: the area gets more slots. Its table may take the place of the first of them: these are copied behind the others.

use crate::creating::check_slots;
use crate::device::SumTable;
use crate::ended::say;
use crate::folder::{AREA, Folder};
use crate::front::turned;
use crate::longer::Longer;
use crate::opened::Opened;
use crate::program::Program;
use crate::shape::Shape;
use crate::state::blocks_in;
use crate::status::Status;
use block_data::BlockBuf;
use diff_area::pages_for;
use image_order::mark;
use std::sync::Arc;

impl Shape {
    /// Reads the first slots in use, so many, and copies them, if there is where to.
    fn copy_first(
        &mut self,
        program: &Program,
        first: u32,
        to: Option<(&Longer, u32)>,
    ) -> Result<(), Status> {
        let mut block = BlockBuf::zeroed(program.alloc())?;
        for slot in 0..first {
            if self.is_used(slot) {
                self.read_slot(slot, &mut block)?;
                if let Some((area, behind)) = to {
                    area.put(behind.saturating_add(slot), block.bytes())?;
                }
            }
        }
        Ok(())
    }

    /// The sums of the blocks of all volumes, and of so many slots, of which the first so many went behind the others.
    fn turned_sums(&self, program: &Program, first: u32, slots: u32) -> Result<SumTable, Status> {
        let (blocks, first) = (blocks_in(self.head.catalog()), first as usize);
        let (others, old) = ((self.slots as usize).saturating_sub(first), &self.sums);
        let sums = SumTable::new(program.alloc(), blocks.saturating_add(slots as usize))?;
        sums.take_from(old, 0, 0, blocks);
        sums.take_from(old, blocks.saturating_add(first), blocks, others);
        sums.take_from(old, blocks, blocks.saturating_add(others), first);
        Ok(sums)
    }
}

/// Gives the area so many slots.
fn more_slots(folder: &mut Folder, shape: &mut Shape, slots: u32) -> Result<(), Status> {
    let (program, alloc, had) = (folder.program, folder.program.alloc(), shape.slots);
    check_slots(&program, slots)?;
    if slots <= had {
        return Err(
            ended!(program, Refused; "SLOTS {slots}: there are {had} already; slots only get more"),
        );
    }
    if shape.rows.len() > slots as usize {
        return Err(Status::DeviceFault);
    }
    let front = 1 + pages_for(slots);
    let first = front.saturating_sub(shape.front).min(had);
    let turn = (first as usize).min(shape.rows.len());
    let rows = turned(alloc, &shape.rows, turn, slots as usize)?;
    shape.copy_first(&program, first, None)?;
    let sums = Arc::new(alloc, shape.turned_sums(&program, first, slots)?)?;
    mark(folder, "grow\n")?;
    let path = folder.path_of(AREA)?;
    let area = Longer::grown(&program, path, front.saturating_add(slots))?;
    let behind = front.saturating_add(had.saturating_sub(first));
    shape.copy_first(&program, first, Some((&area, behind)))?;
    area.sync()?;
    (shape.rows, shape.slots, shape.sums) = (rows, slots, sums);
    shape.commit(folder)
}

/// `grow F SLOTS`: the area gets so many slots.
pub fn grow_slots(opened: Opened, slots: u32) -> Result<(), Status> {
    let program = opened.folder.program;
    let (mut folder, mut shape) = Shape::of(opened)?;
    let done = more_slots(&mut folder, &mut shape, slots);
    shape.end(&program, done)?;
    say(&program, format_args!("slots {slots}\n"))
}
