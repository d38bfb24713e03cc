use set_agenda::Group;
use vss_names::{Context, Order, VssResult};
use writer_calls::Answer;

/// What a move is answered.
#[derive(Clone, Copy)]
pub enum Told {
    Ok,
    /// A device failed, and nothing was written, read or flushed.
    Fault,
    /// A device failed after a revert had restored so many blocks.
    FaultAfter(u32),
    /// The number of the set that was started.
    Set(u32),
    Result(VssResult),
    NotSelectable,
    /// A block by its first eight bytes and its SHA-256.
    Block {
        first: [u8; 8],
        digest: [u8; 32],
    },
    /// The SHA-256 of all blocks of an image, in order.
    Digest([u8; 32]),
    /// The sets of the images that are kept on a volume; they are listed beside.
    Images,
    /// Of a kept image: its set's context, the clock at the cut, and the slots that it uses.
    Properties {
        context: Context,
        cut: u64,
        used: u32,
    },
    /// How many images were deleted.
    Deleted(u32),
    /// The component document by its length in bytes and its SHA-256.
    Document {
        length: u32,
        digest: [u8; 32],
    },
    /// The rows of all writers; they are listed beside.
    Status,
    Answered {
        order: Order,
        answer: Answer,
    },
    /// A step of the provider, with the volume that it is for, and whether the device failed in it.
    Step {
        group: Group,
        volume: Option<u32>,
        fault: bool,
    },
    /// How many ticks of one millisecond went by.
    Ticks(u64),
}
