use block_data::Payload;
use requestor::SessionCall;

/// What a line of a lane does.
#[derive(Drop)]
pub enum Line {
    /// Writes a block of a volume.
    Writes {
        volume: u32,
        block: u32,
        payload: Payload,
    },
    Reads {
        volume: u32,
        block: u32,
    },
    /// Shows the digest of the image of a set on a volume.
    ShowsImage {
        set: u32,
        volume: u32,
    },
    ShowsBlock {
        set: u32,
        volume: u32,
        block: u32,
    },
    /// Shows the sets whose images are kept on a volume.
    ShowsSets {
        volume: u32,
    },
    ShowsProperties {
        set: u32,
        volume: u32,
    },
    Reverts {
        set: u32,
        volume: u32,
    },
    DeletesSet {
        set: u32,
    },
    DeletesImage {
        set: u32,
        volume: u32,
    },
    /// Lets so many ticks of one millisecond pass.
    Ticks {
        ticks: u32,
    },
    /// Makes a session call.
    Calls(SessionCall),
}
