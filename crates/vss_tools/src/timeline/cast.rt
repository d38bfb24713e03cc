use crate::timeline::lines::is_move;
use crate::timeline::named::named_in;
use crate::timeline::row::Row;
use crate::timeline::row_kind::RowKind;
use crate::timeline::script::Script;
use crate::timeline::words::parted;
use std::alloc::Global;
use vss_names::OutOfMemory;

/// The most rows: those of the time, the provider, 64 lanes, 64 writers, 128 volumes.
const MOST_ROWS: usize = 258;

/// Who and what has a row, from top to bottom: the time, the lanes, the provider, the writers, the volumes.
#[derive(Drop)]
pub struct Cast<'a> {
    rows: Vec<Row<'a>>,
}

/// What a line of a scenario declares.
fn declared_in(line: &str) -> Row<'_> {
    let (word, rest) = parted(line);
    let (name, _) = parted(rest);
    let kind = match word {
        "lane" => RowKind::Lane,
        "writer" => RowKind::Writer,
        "volume" => RowKind::Volume,
        _ => RowKind::Time,
    };
    Row { kind, name }
}

impl<'a> Cast<'a> {
    /// Those of a scenario, or, where there is none, of a report.
    pub fn of(
        alloc: Global,
        script: &Script<'a>,
        report: &[&'a str],
    ) -> Result<Cast<'a>, OutOfMemory> {
        let mut cast = Cast {
            rows: Vec::new(alloc),
        };
        cast.add(Row::time())?;
        cast.add_all(RowKind::Lane, script, report)?;
        cast.add(Row::provider())?;
        cast.add_all(RowKind::Writer, script, report)?;
        cast.add_all(RowKind::Volume, script, report)?;
        Ok(cast)
    }

    /// Adds a row, where there is none of its kind and name.
    fn add(&mut self, row: Row<'a>) -> Result<(), OutOfMemory> {
        if self.find(row).is_none() && self.rows.len() < MOST_ROWS {
            self.rows.push(row)?;
        }
        Ok(())
    }

    /// Adds a row, where it is of a kind and has a name.
    fn add_of(&mut self, kind: RowKind, row: Row<'a>) -> Result<(), OutOfMemory> {
        if row.kind != kind || row.name.is_empty() {
            return Ok(());
        }
        self.add(row)
    }

    /// Adds the rows of a kind: as a scenario declares them, or else as the closing lines and then the moves have them.
    fn add_all(
        &mut self,
        kind: RowKind,
        script: &Script<'a>,
        report: &[&'a str],
    ) -> Result<(), OutOfMemory> {
        for line in script.declarations() {
            self.add_of(kind, declared_in(line))?;
        }
        if !script.is_empty() {
            return Ok(());
        }
        for line in report {
            if !is_move(line) {
                self.add_of(kind, named_in(line))?;
            }
        }
        for line in report {
            self.add_of(kind, named_in(line))?;
        }
        Ok(())
    }

    fn find(&self, wanted: Row<'_>) -> Option<usize> {
        self.rows
            .iter()
            .position(|row| row.kind == wanted.kind && row.name == wanted.name)
    }

    /// The place of a row, or that of the time.
    pub fn place(&self, row: Row<'_>) -> usize {
        self.find(row).unwrap_or(0)
    }

    /// The row of a volume.
    pub fn volume(&self, name: &str) -> usize {
        self.place(Row {
            kind: RowKind::Volume,
            name,
        })
    }

    /// What a row is of.
    pub fn kind(&self, row: usize) -> RowKind {
        match self.rows.get(row) {
            Some(row) => row.kind,
            None => RowKind::Time,
        }
    }

    /// The rows, from top to bottom.
    pub fn rows(&self) -> &[Row<'a>] {
        &self.rows
    }
}
