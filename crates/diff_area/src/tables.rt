use crate::layout::pages_for;
use crate::table_record::Record;
use block_data::BLOCK;
use std::alloc::Global;
use vss_names::{MOST_SLOTS, OutOfMemory};

/// What an area keeps in memory.
#[derive(Drop)]
pub struct Tables {
    pub volumes: Vec<u32>,
    pub records: Vec<Record>,
    pub changed: Vec<bool>,
    pub page: Vec<u8>,
}

impl Tables {
    ghost use Rattle.std.specs.Prelude.{◌≡◌, ◌≤◌, ℕ, true, replicate, vec_len, vec_capacity, IfOk};
    ghost use Rattle.diff_area.specs.AreaValue.{AreNew, AreOfRecords};

    /// The records of so many free slots, none of which is written.
    pub fn of_free_slots(alloc: Global, slots: u32, blocks: &[u32]) -> Result<Tables, OutOfMemory>
        requires { slots ≤ MOST_SLOTS }
        ensures { IfOk result (AreNew slots blocks.now) }
    {
        Ok(Tables {
            volumes: blocks.to_vec(alloc)?,
            records: vec![in alloc; Record::FREE; slots as usize]?,
            changed: vec![in alloc; true; pages_for(slots) as usize]?,
            page: Vec::with_capacity(alloc, BLOCK)?,
        })
    }

    /// These records, none of which is written.
    pub fn of_records(
        alloc: Global,
        volumes: Vec<u32>,
        records: Vec<Record>,
    ) -> Result<Tables, OutOfMemory>
        requires { vec_len records ≤ MOST_SLOTS }
        ensures { IfOk result (AreOfRecords volumes.items records.items) }
    {
        let pages = pages_for(records.len() as u32);
        Ok(Tables {
            volumes,
            records,
            changed: vec![in alloc; true; pages as usize]?,
            page: Vec::with_capacity(alloc, BLOCK)?,
        })
    }
}
