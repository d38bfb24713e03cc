use write_history::Evicted;
use writer_state::WriterRow;

/// The lists that a reply or the effects of a move show.
#[derive(Clone, Copy)]
pub struct Lists<'a> {
    /// The sets of the images that `query` shows, oldest first.
    pub listed: &'a [u32],
    /// The images that the move evicted, in order of sets and then of volumes.
    pub evicted: &'a [Evicted],
    /// The rows of all writers, in order of registration.
    pub rows: &'a [WriterRow],
}
