ghost use Rattle.std.specs.Prelude.{◌≡◌, ◌<◌, ◌≤◌, ◌+◌, ◌∷◌, length};
ghost use Rattle.scenario.specs.Lines.{lines_at};

use crate::span::Span;

/// A line of a text, without its newline.
#[derive(Clone, Copy)]
pub(crate) struct TextLine {
    pub span: Span,
    /// Whether a newline ends it. Only the last line may have none.
    pub ended: bool,
}

/// The line that begins at `start`.
pub(crate) fn line_at(text: &[u8], start: usize) -> TextLine
    requires short { length text.now < 4294967295 }
    requires within { start < length text.now }
    ensures next { lines_at text.now start ≡ result ∷ lines_at text.now (result.span.end + 1) }
    ensures start { result.span.start ≡ start }
    ensures ordered { result.span.start ≤ result.span.end }
    ensures inside { result.span.end ≤ length text.now }
{
    for at in start..text.len() {
        if text[at] == b'\n' {
            return TextLine {
                span: Span {
                    start: start as u32,
                    end: at as u32,
                },
                ended: true,
            };
        }
    }
    TextLine {
        span: Span {
            start: start as u32,
            end: text.len() as u32,
        },
        ended: false,
    }
}
