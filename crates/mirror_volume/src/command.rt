/// A call on a volume with images.
#[derive(Clone, Copy, Debug)]
pub enum Command {
    /// A block is filled with a byte.
    Write { block: u32, fill: u8 },
    /// A block is read as it is.
    Read { block: u32 },
    /// An image is cut.
    Cut { set: u32 },
    /// A block is read as the image of a set shows it.
    Image { set: u32, block: u32 },
    /// The image of a set goes.
    Drop { set: u32 },
}
