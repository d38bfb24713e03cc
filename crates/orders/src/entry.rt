use write_history::Actor;

/// A move that an order asks for: whose, and where it does so.
#[derive(Clone, Copy, Debug, PartialEq, Eq)]
pub struct Entry {
    pub actor: Actor,
    /// The number of the line; in a report, that of the move.
    pub place: u32,
}
