/// The copy that a slot has, and the next older copy of its block.
#[derive(Clone, Copy, Debug)]
pub struct Row {
    pub block: u32,
    /// The set of the image that needs the copy; 0 where the slot has none.
    pub set: u32,
    /// The slot of the next older copy of the block; the number of slots where there is none.
    pub older: u32,
}
