ghost use Rattle.std.specs.Prelude.{◌≡◌, ◌==◌, ◌++◌, ◌∷◌, ◌<◌, ◌≤◌, [], length, map, slice_get, Some, OnErr, OnOk};
ghost use Rattle.set_agenda.specs.Agenda.{is_among};
ghost use Rattle.set_agenda.specs.Course.{rows_where};
ghost use Rattle.coordinator.specs.KeptCourse.{changed};

use crate::row_change::RowChange;
use set_agenda::WriterSet;
use std::alloc::Global;
use std::marker::Model;
use vss_names::OutOfMemory;
use writer_state::WriterRow;

/// The rows of the registered writers, in the order of their numbers. Contracts see them as a list.
#[derive(Drop)]
pub struct WriterRows {
    rows: Vec<WriterRow>,
}

impl Model for WriterRows {
    ghost use Rattle.std.specs.Prelude.{List};
    ghost use Rattle.writer_state.specs.declared.writer_row.WriterRow.{WriterRow};

    ghost Value = { List WriterRow };

    ghost view = { λ r. r.rows.items };
}

impl WriterRows {
    /// No rows, which has taken no memory.
    pub fn new(alloc: Global) -> WriterRows
        ensures { result ≡ [] }
    {
        WriterRows {
            rows: Vec::new(alloc),
        }
    }

    /// How many writers there are.
    pub fn len(&self) -> usize
        ensures { result ≡ length self.now }
    {
        self.rows.len()
    }

    /// The rows, one for each writer, in the order of the scenario.
    pub fn items(&self) -> &[WriterRow]
        ensures { result.now ≡ self.now }
    {
        &self.rows
    }

    /// The row of a writer, by its number in the scenario.
    pub fn row(&self, writer: u32) -> WriterRow
        requires { writer < length self.now }
        ensures { Some result ≡ slice_get self.now writer }
    {
        self.rows[writer as usize]
    }

    /// The row of a writer more.
    pub fn push(&mut self, row: WriterRow) -> Result<(), OutOfMemory>
        ensures pushed { OnOk result (self.new ≡ self.old ++ row ∷ []) }
        ensures unchanged { OnErr result (self.new ≡ self.old) }
    {
        self.rows.push(row)?;
        Ok(())
    }

    /// This happens to the row of one writer.
    pub fn change(&mut self, change: RowChange, writer: u32)
        requires { writer < length self.old }
        ensures rows { self.new ≡ rows_where (changed change) (λ w. writer == w) 0 self.old }
        ensures len { length self.new ≡ length self.old }
    {
        change.of_writer(&mut self.rows, writer);
    }

    /// This happens to the rows of these writers.
    pub fn change_each(&mut self, change: RowChange, writers: &WriterSet)
        requires { length self.old ≤ 64 }
        ensures rows { self.new ≡ rows_where (changed change) (λ w. is_among w writers.now) 0 self.old }
        ensures len { length self.new ≡ length self.old }
    {
        change.of_writers(&mut self.rows, writers);
    }

    /// This happens to all rows.
    pub fn change_all(&mut self, change: RowChange)
        ensures rows { self.new ≡ map (changed change) self.old }
        ensures len { length self.new ≡ length self.old }
    {
        change.of_all(&mut self.rows);
    }
}
