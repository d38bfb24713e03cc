/// For what a slot is noted: the set of the image that needs the copy, and the block that was copied.
#[derive(Clone, Copy, Debug, PartialEq, Eq)]
pub struct Copied {
    pub set: u32,
    pub block: u32,
}
