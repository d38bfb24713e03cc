/// The two files of a folder that a call replaces whole.
#[derive(Clone, Copy)]
pub enum Name {
    /// What was committed: of the volumes and images this alone counts.
    State,
    /// What a call leaves that did not end: which volumes may have a part of the old blocks and a part of the new ones.
    Marker,
}
