use crate::cause::Cause;
use crate::span::Span;

/// Why a text is no scenario, in full: for a message to who wrote it.
#[derive(Drop)]
pub struct Refusal {
    /// The first bad line, counted from 1; the line after the last where none is bad and there is no `scenario` line.
    pub line: u32,
    pub cause: Cause,
    /// Where the names of the kind that the cause speaks of were declared above, in order of declaration.
    pub declared: Vec<Span>,
}
