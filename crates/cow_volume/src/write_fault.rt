use crate::cause::Cause;

/// Why a block was not written. The images that went for it are gone all the same.
#[derive(Clone, Copy, Debug, PartialEq, Eq)]
pub struct WriteFault {
    pub cause: Cause,
    /// The greatest set whose images went so that the write had its slot; 0 where none went.
    pub evicted_up_to: u32,
}
