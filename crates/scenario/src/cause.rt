ghost use Rattle.std.specs.Prelude.{◌≡◌};

use crate::expected::Expected;
use crate::field::Field;
use crate::name_kind::NameKind;
use crate::reason::Reason;
use crate::span::Span;

/// The first check that a line does not pass, what it expected, and of what part of the text: none where it is of the line as a
/// whole.
#[derive(Clone, Copy)]
pub struct Cause {
    pub reason: Reason,
    pub found: Option<Span>,
    pub expected: Expected,
}

impl Cause {
    /// A field that does not pass.
    pub(crate) fn field(reason: Reason, field: Field, expected: Expected) -> Cause
        ensures { result.reason ≡ reason }
    {
        let found = match field {
            Field::Text(span) => Some(span),
            _ => None,
        };
        Cause {
            reason,
            found,
            expected,
        }
    }

    /// A line that does not pass.
    pub(crate) fn line(reason: Reason, expected: Expected) -> Cause
        ensures { result.reason ≡ reason }
    {
        Cause {
            reason,
            found: None,
            expected,
        }
    }

    /// No name of this kind that was declared above.
    pub(crate) fn undeclared(found: Field, kind: NameKind) -> Cause
        ensures { result.reason ≡ Reason.UnknownName }
    {
        Cause::field(Reason::UnknownName, found, Expected::Declared(kind))
    }

    /// No form of the line's word has so many fields.
    pub(crate) fn no_form() -> Cause
        ensures { result.reason ≡ Reason.BadCount }
    {
        Cause::line(Reason::BadCount, Expected::Form)
    }

    /// More of these than there may be.
    pub(crate) fn too_many(what: &'static str, most: u64) -> Cause
        ensures { result.reason ≡ Reason.TooMany }
    {
        Cause::line(Reason::TooMany, Expected::AtMost { what, most })
    }
}
