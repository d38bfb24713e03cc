/// Why a group is not taken up again.
#[derive(Clone, Copy, Debug, PartialEq, Eq)]
pub enum ResumeFault {
    /// The slot, the first such, holds a copy for the image of this set, which the list of its volume does not have.
    NoImage { slot: u32, set: u32 },
    OutOfMemory,
}
