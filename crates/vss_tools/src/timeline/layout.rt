use crate::timeline::band::Band;
use crate::timeline::band_row::BandRow;
use crate::timeline::fold::Fold;
use crate::timeline::picture::Picture;
use crate::timeline::row_use::RowUse;
use std::alloc::Global;
use vss_names::OutOfMemory;

/// How far below the upper edge of a row its marks lie, and the height of a closing line, in pixels.
const MARK: u64 = 13;

const LINE: u64 = 16;

/// The room above the first band for the title and the key, and below each band.
const TITLE: u64 = 92;

const GAP: u64 = 22;

/// The least width of the rows, which the key needs.
const LEAST: u64 = 920;

/// The most bytes of a label that are shown.
const LABEL: u64 = 64;

/// Where all is drawn, in pixels.
#[derive(Drop)]
pub struct Layout {
    /// The rows of all bands.
    rows: Vec<BandRow>,
    /// How high the marks of each row lie within their band, and those of closing lines within theirs.
    pub heights: Vec<u64>,
    /// The upper edges of the rows of each band, and behind them that of the closing lines.
    bands: Vec<u64>,
    /// The room on the left for the rows' titles.
    pub left: u64,
    pub width: u64,
    pub height: u64,
}

/// The room that the rows' titles need.
fn left_of(picture: &Picture<'_>) -> u64 {
    let mut longest = 0;
    for row in picture.stage().cast().rows() {
        let len = row.kind.title().len().saturating_add(row.name.len());
        longest = len.max(longest);
    }
    (longest as u64).saturating_mul(8).saturating_add(24)
}

/// How many pixels so many letters of a label take upwards, and to the right.
fn label_size(longest: usize) -> (u64, u64) {
    let letters = (longest as u64).min(LABEL).saturating_add(3);
    (
        letters.saturating_mul(11) / 2,
        letters.saturating_mul(39) / 10,
    )
}

/// What the rows of a band have to have room for; the first, that of the time, is always there.
fn uses_of(alloc: Global, picture: &Picture<'_>, band: &Band) -> Result<Vec<RowUse>, OutOfMemory> {
    let count = picture.stage().cast().rows().len();
    let mut uses = Vec::new(alloc);
    for row in 0..count {
        uses.push(RowUse {
            is_marked: row == 0,
            ..RowUse::NONE
        })?;
    }
    for mark in picture.marks.get(band.marks.0..band.marks.1).unwrap_or(&[]) {
        let first = mark.place.band.saturating_mul(count);
        if let Some(row) = uses.get_mut(mark.place.row.saturating_sub(first)) {
            row.is_marked = true;
        }
    }
    let bars = picture.stage().bars().done();
    for bar in bars.get(band.bars.0..band.bars.1).unwrap_or(&[]) {
        if let Some(row) = uses.get_mut(bar.row) {
            row.takes(bar);
        }
    }
    Ok(uses)
}

impl Layout {
    /// That of a picture.
    pub fn of(alloc: Global, picture: &Picture<'_>) -> Result<Layout, OutOfMemory> {
        let mut layout = Layout {
            rows: Vec::new(alloc),
            heights: Vec::new(alloc),
            bands: Vec::new(alloc),
            left: left_of(picture),
            width: LEAST,
            height: TITLE,
        };
        layout.add_picture(alloc, picture)?;
        Ok(layout)
    }

    fn add_picture(&mut self, alloc: Global, picture: &Picture<'_>) -> Result<(), OutOfMemory> {
        for band in picture.stage().bands() {
            let uses = uses_of(alloc, picture, band)?;
            self.add_band(band, &uses)?;
        }
        self.width = self.width.saturating_add(self.left);
        self.add_closing(picture.stage().closing(), picture.stage().fold())
    }

    fn add_band(&mut self, band: &Band, uses: &[RowUse]) -> Result<(), OutOfMemory> {
        let (up, right) = label_size(band.longest);
        let mut y = 0u64;
        for row in uses {
            let (bars, bottom) = row.height();
            self.rows.push(BandRow {
                top: y,
                bars: y.saturating_add(bars),
                bottom: y.saturating_add(bottom),
            })?;
            self.heights.push(y.saturating_add(MARK))?;
            y = y.saturating_add(bottom);
        }
        let top = self.height.saturating_add(up);
        self.bands.push(top)?;
        self.width = self.width.max(band.edge.saturating_add(right));
        self.height = top.saturating_add(y).saturating_add(GAP);
        Ok(())
    }

    fn add_closing(&mut self, count: usize, fold: Fold) -> Result<(), OutOfMemory> {
        self.bands.push(self.height.saturating_add(LINE))?;
        for line in 0..count {
            self.heights
                .push((fold.place(line).1 as u64).saturating_mul(LINE))?;
        }
        let lines = (count.min(fold.lines) as u64).saturating_add(2);
        self.height = self.height.saturating_add(lines.saturating_mul(LINE));
        self.width = self.width.max(fold.right_of(count));
        Ok(())
    }

    /// The upper edge of the rows of a band, or of the closing lines.
    pub fn band(&self, band: usize) -> u64 {
        self.bands.get(band).copied().unwrap_or(self.height)
    }

    /// The rows of a band, where each has so many.
    pub fn rows(&self, band: usize, count: usize) -> &[BandRow] {
        let first = band.saturating_mul(count);
        self.rows
            .get(first..first.saturating_add(count))
            .unwrap_or(&[])
    }

    /// How high the marks of a row lie.
    pub fn mark(&self, row: usize) -> u64 {
        self.heights.get(row).copied().unwrap_or(0)
    }
}
