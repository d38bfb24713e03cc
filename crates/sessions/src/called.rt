use crate::session_move::SessionMove;

/// What an event comes to.
#[derive(Clone, Copy)]
pub enum Called {
    /// The event waits; nothing has changed.
    Waits,
    Moves(SessionMove),
}
