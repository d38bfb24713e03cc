use crate::timeline::axis::Axis;
use crate::timeline::span::Span;

/// A run whose picture is drawn.
#[derive(Clone, Copy)]
pub struct Run<'a> {
    /// What the picture is called.
    pub name: &'a str,
    /// The scenario, which tells what the lanes' lines say; empty where it is not known.
    pub scenario: &'a str,
    pub report: &'a str,
    /// The moves that are drawn.
    pub span: Span,
    pub axis: Axis,
}
