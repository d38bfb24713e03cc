/// What a backup does next.
#[derive(Clone, Copy, Debug, PartialEq, Eq)]
pub enum Next {
    /// It waits for what happens.
    Waits,
    /// It has more to do at once, and looks first at what has happened.
    GoesOn,
    /// It is over.
    Over,
}
