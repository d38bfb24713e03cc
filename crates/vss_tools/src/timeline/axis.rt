/// What the columns of a drawing are.
#[derive(Clone, Copy, PartialEq, Eq)]
pub enum Axis {
    /// Moves: each takes the same room, and so does each time that went by.
    Moves,
    /// The clock: the room of a time that went by grows with it.
    Clock,
}
