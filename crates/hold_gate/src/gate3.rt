/// Whether a write may go on, and if not, why.
#[derive(Clone, Copy, Debug, PartialEq, Eq)]
pub enum Gate3 {
    /// The write may go on.
    Open,
    /// The volume's writes are held.
    Held,
    /// The writer in whose name the write comes stands frozen.
    Frozen,
}
