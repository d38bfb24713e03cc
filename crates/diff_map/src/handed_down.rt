use crate::entry::Entry;

/// A copy that an image handed down.
#[derive(Clone, Copy, Debug, PartialEq, Eq)]
pub struct HandedDown {
    /// The copy as it was.
    pub entry: Entry,
    /// Whether the older image has it now. Else that had one of the block, and the slot is noted for none.
    pub kept: bool,
}
