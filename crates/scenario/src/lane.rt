use crate::lane_line::LaneLine;
use crate::span::Span;

/// A lane with its lines.
#[derive(Drop)]
pub struct Lane {
    pub name: Span,
    /// The number of the writer as which it acts.
    pub acts_as: Option<u32>,
    pub lines: Vec<LaneLine>,
}
