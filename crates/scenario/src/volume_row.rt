use crate::span::Span;

/// A declared volume.
#[derive(Clone, Copy, Debug, PartialEq, Eq)]
pub struct VolumeRow {
    pub name: Span,
    /// Its number of blocks.
    pub blocks: u32,
    /// The slots of its group's diff area.
    pub slots: u32,
    /// The number of its group: the volumes that share one diff area.
    pub group: u32,
}
