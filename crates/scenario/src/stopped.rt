use crate::unread::Unread;

/// Where the reading of a text stopped.
#[derive(Clone, Copy)]
pub(crate) struct Stopped {
    /// The number of the line that was not taken.
    pub line: u32,
    pub unread: Unread,
}
