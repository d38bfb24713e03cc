use std::alloc::{AllocError, Global};
use std::fmt;

/// An outcome of runs.
#[derive(Drop)]
struct Row {
    text: String,
    /// How many runs came out so.
    count: u64,
    /// The least number that drew one of them.
    least: u32,
}

/// The outcomes of many runs, by the least number of each.
#[derive(Drop)]
pub struct Outcomes {
    rows: Vec<Row>,
}

impl Outcomes {
    /// None yet.
    pub fn new(alloc: Global) -> Outcomes {
        Outcomes {
            rows: Vec::new(alloc),
        }
    }

    /// Counts the outcome of the run that a number draws.
    pub fn add(&mut self, number: u32, text: String) -> Result<(), AllocError> {
        for row in &mut self.rows {
            if row.text == text {
                row.count = row.count.saturating_add(1);
                return Ok(());
            }
        }
        self.rows.push(Row {
            text,
            count: 1,
            least: number,
        })?;
        Ok(())
    }
}

impl fmt::Display for Outcomes {
    fn fmt<W: fmt::Write>(&self, f: &mut fmt::Formatter<W>) -> fmt::Result {
        for row in &self.rows {
            write!(
                f,
                "outcome {} times, first seed {}\n{}",
                row.count, row.least, row.text
            )?;
        }
        Ok(())
    }
}
