use crate::span::Span;

/// A group of volumes: those that share one diff area.
#[derive(Clone, Copy, Debug, PartialEq, Eq)]
pub struct GroupRow {
    /// The name in the `area` line; of a volume with an area of its own, the volume's name.
    pub name: Span,
    /// The slots of the area.
    pub slots: u32,
}
