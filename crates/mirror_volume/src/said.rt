/// What a volume with images said to a command.
#[derive(Clone, Copy, Debug, PartialEq, Eq)]
pub enum Said {
    /// The image was cut, or it went.
    Ok,
    /// The block was written, and the images of the sets up to this one went.
    Wrote { evicted_up_to: u32 },
    /// The SHA-256 of the block that was read.
    Bytes([u8; 32]),
    NoSuchImage,
    NoMirror,
    /// A device failed. The images of the sets up to this one went, where the command was a write; else the number is 0.
    Fault { evicted_up_to: u32 },
}
