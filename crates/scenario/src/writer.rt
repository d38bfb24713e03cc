use crate::script::Script;
use crate::span::Span;
use writer_meta::Metadata;

/// A declared writer.
#[derive(Drop)]
pub struct Writer {
    pub name: Span,
    pub metadata: Metadata,
    /// What it answers, in order of the `answer` lines.
    pub script: Script,
}
