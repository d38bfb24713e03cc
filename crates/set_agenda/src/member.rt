use vss_names::Level;

/// A writer that an agenda asks, with the level at which it is frozen and thawed.
#[derive(Clone, Copy, Debug, PartialEq, Eq)]
pub struct Member {
    pub writer: u32,
    pub level: Level,
}
