ghost use Rattle.std.specs.Prelude.{◌≡◌, ◌==◌, ◌<◌, ◌≤◌, length, map};
ghost use Rattle.set_agenda.specs.Agenda.{is_among};
ghost use Rattle.set_agenda.specs.Course.{row_if, rows_where};
ghost use Rattle.coordinator.specs.KeptCourse.{changed};

use set_agenda::WriterSet;
use vss_names::Order;
use writer_state::{Said, WriterRow};

/// What happens to a writer's row.
#[derive(Clone, Copy, Debug, PartialEq, Eq)]
pub enum RowChange {
    /// The writer said this to this order.
    Told(Order, Said),
    /// The set failed in which the writer takes part.
    Aborted,
    /// The writers are asked anew what they have.
    Gathered,
    /// The session ended.
    Ended,
}

impl RowChange {
    fn of(self, row: WriterRow) -> WriterRow
        ensures { result ≡ changed self row }
    {
        match self {
            RowChange::Told(order, said) => row.answered(order, said),
            RowChange::Aborted => row.told_abort(),
            RowChange::Gathered => row.gathered(),
            RowChange::Ended => row.ended(),
        }
    }

    fn of_if(self, really: bool, row: WriterRow) -> WriterRow
        ensures { result ≡ row_if really (changed self) row }
    {
        if really { self.of(row) } else { row }
    }

    /// It happens to the rows of these writers.
    pub fn of_writers(self, rows: &mut Vec<WriterRow>, writers: &WriterSet)
        requires { length rows.old.items ≤ 64 }
        ensures rows { rows.new.items ≡ rows_where (changed self) (λ w. is_among w writers.now) 0 rows.old.items }
        ensures len { length rows.new.items ≡ length rows.old.items }
    {
        let mut number = 0;
        while number < rows.len() {
            let row = self.of_if(writers.contains(number as u32), rows[number]);
            rows[number] = row;
            number += 1;
        }
    }

    /// It happens to the row of one writer.
    pub fn of_writer(self, rows: &mut Vec<WriterRow>, writer: u32)
        requires { writer < length rows.old.items }
        ensures rows { rows.new.items ≡ rows_where (changed self) (λ w. writer == w) 0 rows.old.items }
        ensures len { length rows.new.items ≡ length rows.old.items }
    {
        let row = self.of(rows[writer as usize]);
        rows[writer as usize] = row;
    }

    /// It happens to all rows.
    pub fn of_all(self, rows: &mut Vec<WriterRow>)
        ensures rows { rows.new.items ≡ map (changed self) rows.old.items }
        ensures len { length rows.new.items ≡ length rows.old.items }
    {
        let mut number = 0;
        while number < rows.len() {
            let row = self.of(rows[number]);
            rows[number] = row;
            number += 1;
        }
    }
}
