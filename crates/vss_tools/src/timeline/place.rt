/// Where the mark of a line of a report is drawn.
#[derive(Clone, Copy)]
pub struct Place {
    /// The band, from 0; closing lines have one of their own below all others.
    pub band: usize,
    /// The row, counted through all bands.
    pub row: usize,
    /// From left to right within the band, in pixels.
    pub x: u64,
    /// The clock after the line, and by how much it went on in it, in ticks.
    pub clock: u64,
    pub passed: u64,
    /// How wide the room of that time is, in pixels.
    pub gap: u64,
}
