/// Why the move of an actor may not come.
#[derive(Clone, Copy, Debug, PartialEq, Eq)]
pub enum Why {
    /// It has to wait.
    Blocked,
    /// The actor has no move any more: its lane is used up, or the run is complete.
    Finished,
}
