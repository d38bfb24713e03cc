/// Who makes a move.
#[derive(Clone, Copy, Debug, PartialEq, Eq)]
pub enum Actor {
    /// A lane makes its next line.
    Lane(u32),
    /// A writer answers its open order.
    Writer(u32),
    /// The provider makes its next step.
    Advance,
    /// Time goes by until a limit is spent, where nothing else can move.
    Idle,
}
