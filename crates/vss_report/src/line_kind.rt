use write_history::Move as Step;

/// What a line of a report is, as it is read back.
#[derive(Clone, Copy, Debug, PartialEq, Eq)]
pub(crate) enum LineKind {
    Move(Step),
    Effect,
    /// The line after the last move and its effects.
    End,
    /// It is not of the form.
    Bad,
}
