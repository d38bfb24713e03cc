use scenario::Op;
use writer_calls::Answer;

/// What happens to the service in one move.
#[derive(Clone, Copy)]
pub enum Event {
    /// A lane makes a line.
    Line { lane: u32, op: Op },
    /// A writer answers its open order.
    Answer { writer: u32, answer: Answer },
    /// The provider makes its next step.
    Provider,
    /// Time goes by until a limit is spent.
    Idle,
}
