/// A block was written.
#[derive(Clone, Copy, Debug, PartialEq, Eq)]
pub struct Written {
    /// The greatest set whose images went so that the write had its slot; 0 where none went.
    pub evicted_up_to: u32,
}
