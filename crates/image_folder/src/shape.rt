//! What a folder becomes that gets other volumes or slots. All is made beside what counts, and then the next state takes the place of the one
//! before. Over files the passes tell nothing.

use crate::device::{StoreDevice, SumTable};
use crate::folder::Folder;
use crate::front::{front_of, rows_of};
use crate::left::remove_file;
use crate::opened::{Files, Opened, first_fault};
use crate::program::Program;
use crate::state::{Row, State, blocks_in};
use crate::status::Status;
use block_data::BlockBuf;
use image_order::{Copied, Passes, commit, end_in_order};
use image_store::Head;
use std::alloc::Global;
use std::sync::Arc;
use volume_device::Device;
use vss_names::Text;

/// A folder that gets other volumes or slots: its volumes, what each slot has, and the files that come, grow or go.
#[derive(Drop)]
pub struct Shape {
    pub head: Head,
    pub rows: Vec<Row>,
    pub slots: u32,
    /// How many blocks were before the slots.
    pub front: u32,
    pub sums: Arc<SumTable, Global>,
    pub devices: Vec<StoreDevice>,
    pub area: StoreDevice,
    /// The files that go.
    pub gone: Vec<String>,
}

/// What a shape begins with: what the state has, what each slot has, and the sums.
#[derive(Drop)]
struct Begun {
    head: Head,
    rows: Vec<Row>,
    slots: u32,
    front: u32,
    sums: Arc<SumTable, Global>,
}

/// The same, of a folder that was opened.
fn begun_of(opened: &Opened) -> Result<Begun, Status> {
    opened.check_transit(&[])?;
    let Some(sums) = opened.folder.table()? else {
        return Err(Status::DeviceFault);
    };
    let state = State::read(&opened.folder)?;
    let rows = rows_of(opened.folder.program.alloc(), &state)?;
    let (slots, front) = (state.slots(), state.front_blocks);
    let State { head, .. } = state;
    Ok(Begun {
        head,
        rows,
        slots,
        front,
        sums,
    })
}

impl Shape {
    /// A folder as it is, which was opened to be written, and in which no volume is in transit.
    pub fn of(opened: Opened) -> Result<(Folder, Shape), Status> {
        let begun = begun_of(&opened)?;
        let (folder, store) = opened.apart();
        let gone = Vec::new(folder.program.alloc());
        Ok((folder, Shape::from(begun, store, gone)))
    }

    /// That which begins so, of a store, and the files that go.
    fn from(begun: Begun, store: Files, gone: Vec<String>) -> Shape {
        let Begun {
            head,
            rows,
            slots,
            front,
            sums,
        } = begun;
        let (devices, area) = store.into_devices();
        Shape {
            head,
            rows,
            slots,
            front,
            sums,
            devices,
            area,
            gone,
        }
    }

    /// Whether a slot is in use.
    pub fn is_used(&self, slot: u32) -> bool {
        matches!(self.rows.get(slot as usize), Some(row) if row.set != 0)
    }

    /// Reads a slot.
    pub fn read_slot(&mut self, slot: u32, block: &mut BlockBuf) -> Result<(), Status> {
        let index = self.front.saturating_add(slot);
        if index < self.area.blocks() && self.area.read_into(index, block.bytes_mut()).is_ok() {
            return Ok(());
        }
        Err(Status::DeviceFault)
    }

    /// The sums of the blocks of all volumes, of which one got some more behind so many others, and of the slots.
    pub fn parted_sums(
        &self,
        program: &Program,
        behind: usize,
        more: usize,
    ) -> Result<SumTable, Status> {
        let all = blocks_in(self.head.catalog()).saturating_add(self.slots as usize);
        let sums = SumTable::new(program.alloc(), all.saturating_add(more))?;
        sums.take_from(&self.sums, 0, 0, behind);
        let others = all.saturating_sub(behind);
        sums.take_from(&self.sums, behind, behind.saturating_add(more), others);
        Ok(sums)
    }

    /// Commits what the folder has become under the marker that is there. Its files were made.
    pub fn commit(&mut self, folder: &mut Folder) -> Result<(), Status> {
        let program = folder.program;
        let front = front_of(program.alloc(), self.head.catalog(), &self.rows)?;
        (folder.front, folder.sums) = (Some(front), Some(Arc::try_clone(&self.sums)?));
        commit(folder, self, &program)?;
        if !self.gone.is_empty() {
            folder.give_back()?;
        }
        end_in_order(folder, self, &program)
    }

    /// Ends a call: says the device that failed, if it was one.
    pub fn end(self, program: &Program, done: Result<(), Status>) -> Result<(), Status> {
        let Err(Status::DeviceFault) = done else {
            return done;
        };
        let Shape { devices, area, .. } = self;
        Err(first_fault(program, devices, area))
    }
}

impl Passes<Status, Program> for Shape {
    ghost use Rattle.image_store.specs.Head.{bytes_of_head};

    ghost head = { λ p. bytes_of_head p.head };

    ghost stands = { λ jobs first p. Unit {0} };

    ghost is_before = { λ first p. Unit {0} };

    ghost opens = { λ first p h. Unit {0} };

    ghost holds = { λ first p h. Unit {0} };

    ghost covers = { λ jobs first p h. Unit {0} };

    ghost is_copied = { λ jobs. Unit {0} };

    ghost is_torn = { λ jobs. Unit {0} };

    ghost is_brought = { λ jobs first p. Unit {0} };

    ghost lasts = { λ jobs p. Unit {0} };

    fn copy(&mut self, _jobs: &mut Program) -> Result<Copied, Status> {
        Ok(Copied::All)
    }

    fn say_gone(&self, _jobs: &Program) -> Result<(), Status> {
        Ok(())
    }

    /// All that the next state has was synced as it was written.
    fn sync(&mut self, _jobs: &Program) -> Result<(), Status> {
        Ok(())
    }

    fn head(&self, jobs: &Program) -> Result<Text, Status> {
        Ok(self.head.bytes(jobs.alloc())?)
    }

    fn slots(&self) -> u32 {
        self.slots
    }

    fn overwrite(&mut self, _jobs: &mut Program) -> Result<(), Status> {
        Ok(())
    }

    /// Takes the files away that go.
    fn finish(&mut self, jobs: &Program) -> Result<(), Status> {
        for path in &self.gone {
            remove_file(jobs, path.as_str())?;
        }
        Ok(())
    }

    ghost held_open = { λ first now h held. held };

    ghost covered_open = { λ jobs first now h covered. covered };
}
