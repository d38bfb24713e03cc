ghost use Rattle.std.specs.Prelude.{◌≡◌};
ghost use Rattle.scenario.specs.Messages.{name_of_quantity};

use crate::span::Span;

/// What a number of a line counts or numbers.
#[derive(Clone, Copy)]
pub enum Quantity {
    /// Of the language.
    Version,
    Slots,
    Blocks,
    /// A block of the volume that was declared by the name at this part of the text.
    Block(Span),
    Byte,
    Stamp,
    Set,
    Ticks,
    Context,
    /// Which of the orders of its kind.
    Nth,
}

impl Quantity {
    /// What it is called in the forms of lines.
    pub fn name(self) -> &'static str
        ensures { result.now ≡ name_of_quantity self }
    {
        match self {
            Quantity::Version => "VERSION",
            Quantity::Slots => "SLOTS",
            Quantity::Blocks => "BLOCKS",
            Quantity::Block(_) => "BLOCK",
            Quantity::Byte => "BYTE",
            Quantity::Stamp => "NUMBER",
            Quantity::Set => "SET",
            Quantity::Ticks => "TICKS",
            Quantity::Context => "CONTEXT",
            Quantity::Nth => "NTH",
        }
    }
}
