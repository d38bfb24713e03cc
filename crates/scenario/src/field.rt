ghost use Rattle.std.specs.Prelude.{◌≡◌, ℕ};
ghost use Rattle.scenario.specs.declared.field.Field.TheVariants as field;
ghost use Rattle.scenario.specs.Fields.{span_of, IsField, IsPart};

use crate::span::Span;

/// A field of a line: a part of the text, or what a builder was given in its place.
#[derive(Clone, Copy)]
pub(crate) enum Field {
    Text(Span),
    /// A number; of what was declared, its number in order of declaration.
    Number(u64),
    /// The word that has to stand there.
    Word,
}

impl Field {
    /// The part of the text that it is; an empty one where a value was given.
    pub(crate) fn span(self) -> Span
        ensures value { result ≡ span_of self }
        ensures part { (n : ℕ) → IsField n self → IsPart n result }
    {
        match self {
            Field::Text(span) => span,
            _ => Span { start: 0, end: 0 },
        }
    }
}

/// A number that a builder was given.
pub(crate) fn number(n: u32) -> Field
    ensures { result ≡ field.Number n }
{
    Field::Number(u64::from(n))
}
