use crate::span::Span;

/// A declared area.
#[derive(Clone, Copy)]
pub(crate) struct AreaRow {
    pub name: Span,
    pub slots: u32,
    /// The number of its group, once a volume is in it.
    pub group: Option<u32>,
}
