/// What a step of a mirror back into step with the primary did.
#[derive(Clone, Copy, Debug, PartialEq, Eq)]
pub enum Synced {
    /// The lowest stale block was copied.
    Copied { block: u32 },
    /// The mirror holds no image, and no block is stale.
    InStep,
}
