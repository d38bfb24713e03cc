/// How far a pass of copying came.
#[derive(Clone, Copy)]
pub enum Copied {
    /// Each block that is to be overwritten has its copies.
    All,
    /// Images had to go for a slot. They are gone in memory alone: their slots are used after a commit without them.
    UntilEvicted,
}
