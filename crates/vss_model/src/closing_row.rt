use writer_state::WriterRow;

/// One closing line of a report.
#[derive(Clone, Copy)]
pub enum ClosingRow {
    End {
        moves: u32,
        clock: u64,
    },
    Volume {
        volume: u32,
        used: u32,
        digest: [u8; 32],
    },
    Image {
        set: u32,
        volume: u32,
        digest: [u8; 32],
    },
    Writer {
        writer: u32,
        row: WriterRow,
    },
}
