/// A row of a band, in pixels from the band's upper edge.
#[derive(Clone, Copy)]
pub struct BandRow {
    /// The upper edge of the row, and of its bars.
    pub top: u64,
    pub bars: u64,
    /// The lower edge; the same as the upper one where the row is left out.
    pub bottom: u64,
}
