ghost use Rattle.std.specs.Prelude.{◌≡◌};
ghost use Rattle.scenario.specs.Messages.{kind_expected};

use crate::name_kind::NameKind;
use crate::quantity::Quantity;

/// What was expected of a line, or of a part of it, by the check that it does not pass.
#[derive(Clone, Copy)]
pub enum Expected {
    /// Bytes from 32 to 126.
    Printable,
    Newline,
    /// A word that a line may begin with.
    FirstWord,
    /// The `scenario` line, which comes before every other.
    Opening,
    /// No second `scenario` line.
    OneOpening,
    /// No lane above.
    NoLane,
    /// A lane above.
    Lane,
    /// As many fields as a form of the line's word has.
    Form,
    /// A number from `least` to `most`.
    Number {
        quantity: Quantity,
        least: u64,
        most: u64,
    },
    /// A name that is new. `taken` is the place, among the names of its kind, of an earlier one that is the same.
    NewName {
        kind: NameKind,
        taken: Option<usize>,
    },
    /// A name that was declared above.
    Declared(NameKind),
    /// The word that a form has there.
    Word,
    /// The name of an order.
    Order,
    /// The name of a writer's error.
    Code,
    /// An order of its writer that no `answer` line above speaks of.
    NewAnswer,
    /// A metadata document.
    Document,
    /// At most so many of these.
    AtMost {
        what: &'static str,
        most: u64,
    },
}

impl Expected {
    /// The kind of the name that was expected, where it was one.
    pub fn kind(self) -> Option<NameKind>
        ensures { result ≡ kind_expected self }
    {
        match self {
            Expected::NewName { kind, .. } | Expected::Declared(kind) => Some(kind),
            _ => None,
        }
    }
}
