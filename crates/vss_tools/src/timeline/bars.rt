use crate::timeline::bar::Bar;
use crate::timeline::bar_kind::BarKind;
use crate::timeline::ending::Ending;
use crate::timeline::pick::Pick;
use crate::timeline::row_bars::RowBars;
use std::alloc::Global;
use vss_names::OutOfMemory;

/// All that lasts, by rows, and what of it has ended, in the order of the bands in which it is drawn.
#[derive(Drop)]
pub struct Bars<'a> {
    rows: Vec<RowBars<'a>>,
    done: Vec<Bar<'a>>,
    /// Whether a write was the last that was noted as one that copies: where in `done`.
    copied: Option<usize>,
}

impl<'a> Bars<'a> {
    /// None yet, in so many rows.
    pub fn new(alloc: Global, count: usize) -> Result<Bars<'a>, OutOfMemory> {
        let mut rows = Vec::new(alloc);
        for _ in 0..count {
            rows.push(RowBars::new(alloc))?;
        }
        Ok(Bars {
            rows,
            done: Vec::new(alloc),
            copied: None,
        })
    }

    /// Begins a bar of a row.
    pub fn begin(
        &mut self,
        kind: BarKind,
        row: usize,
        number: u64,
        x: u64,
    ) -> Result<(), OutOfMemory> {
        let bar = Bar {
            kind,
            row,
            track: 0,
            number,
            cut: 0,
            from: x,
            to: x,
            ending: Ending::Stands,
        };
        match self.rows.get_mut(row) {
            Some(bars) => bars.begin(bar),
            None => Ok(()),
        }
    }

    /// Ends the bars of a row that are picked.
    pub fn end_in(
        &mut self,
        row: usize,
        pick: Pick,
        x: u64,
        ending: Ending<'a>,
    ) -> Result<(), OutOfMemory> {
        match self.rows.get_mut(row) {
            Some(bars) => bars.end(&mut self.done, pick, x, ending),
            None => Ok(()),
        }
    }

    /// Ends the bars of all rows that are picked.
    pub fn end(&mut self, pick: Pick, x: u64, ending: Ending<'a>) -> Result<(), OutOfMemory> {
        for bars in self.rows.iter_mut() {
            bars.end(&mut self.done, pick, x, ending)?;
        }
        Ok(())
    }

    /// Begins an image of a set in each row that is held, at the cut in this line of the report.
    pub fn cut(&mut self, set: u64, x: u64, cut: u64) -> Result<(), OutOfMemory> {
        for (row, bars) in self.rows.iter_mut().enumerate() {
            if bars.count(BarKind::Held) > 0 {
                bars.begin(Bar {
                    kind: BarKind::Making,
                    row,
                    track: 0,
                    number: set,
                    cut,
                    from: x,
                    to: x,
                    ending: Ending::Stands,
                })?;
            }
        }
        Ok(())
    }

    /// Makes of each image that is made one that stands.
    pub fn stand(&mut self, x: u64) -> Result<(), OutOfMemory> {
        for bars in self.rows.iter_mut() {
            bars.stand(&mut self.done, x)?;
        }
        Ok(())
    }

    /// Ends a band at its right edge.
    pub fn turn(&mut self, x: u64) -> Result<(), OutOfMemory> {
        for bars in self.rows.iter_mut() {
            bars.turn(&mut self.done, x)?;
        }
        Ok(())
    }

    /// The latest cut of an image of a row.
    fn newest_cut(&self, row: usize) -> Option<u64> {
        match self.rows.get(row) {
            Some(bars) => bars.newest_cut(),
            None => None,
        }
    }

    /// Notes that a block of a volume is written; for its newest image what it had is copied before, where that is not done yet.
    pub fn write(&mut self, row: usize, written: u64, x: u64) -> Result<(), OutOfMemory> {
        let newest = self.newest_cut(row);
        let copies = matches!(newest, Some(cut) if written <= cut);
        self.copied = if copies { Some(self.done.len()) } else { None };
        let kind = if copies {
            BarKind::Copy
        } else {
            BarKind::Write
        };
        self.note(kind, row, 0, 0, x)
    }

    /// Notes that the last write copied nothing, where it left no image in a row.
    pub fn evict(&mut self, row: usize) {
        let is_left = self.newest_cut(row).is_some();
        if let (false, Some(at)) = (is_left, self.copied) {
            if let Some(bar) = self.done.get_mut(at) {
                bar.kind = BarKind::Write;
            }
        }
    }

    /// Notes how many slots the image of a set uses.
    pub fn used(&mut self, row: usize, set: u64, used: u64, x: u64) -> Result<(), OutOfMemory> {
        let Some(bars) = self.rows.get(row) else {
            return Ok(());
        };
        match bars.track_of(set) {
            Some(track) => self.note(BarKind::Used, row, track, used, x),
            None => Ok(()),
        }
    }

    fn note(
        &mut self,
        kind: BarKind,
        row: usize,
        track: usize,
        number: u64,
        x: u64,
    ) -> Result<(), OutOfMemory> {
        self.done.push(Bar {
            kind,
            row,
            track,
            number,
            cut: 0,
            from: x,
            to: x,
            ending: Ending::Stands,
        })?;
        Ok(())
    }

    /// How many bars of a kind a row has now.
    pub fn count(&self, row: usize, kind: BarKind) -> u64 {
        match self.rows.get(row) {
            Some(bars) => bars.count(kind),
            None => 0,
        }
    }

    /// What has ended.
    pub fn done(&self) -> &[Bar<'a>] {
        &self.done
    }
}
