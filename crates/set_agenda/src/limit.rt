/// A limit of time. Where several are spent at once, the first of them here decides.
#[derive(Clone, Copy, Debug, PartialEq, Eq)]
pub enum Limit {
    /// From the first Hold step until the last Release step.
    Hold,
    /// From the first Freeze group until PostCommit is closed.
    Freeze,
    /// While another group of writers is open.
    Answer,
}
