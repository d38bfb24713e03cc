/// The moves that are drawn, by their numbers, from 1.
#[derive(Clone, Copy, PartialEq, Eq)]
pub struct Span {
    /// The first of them.
    pub from: u64,
    /// The last of them.
    pub to: u64,
}

impl Span {
    /// All moves.
    pub const ALL: Span = Span {
        from: 1,
        to: u64::MAX,
    };
}
