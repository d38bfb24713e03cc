/// How far a pass of an update came.
#[derive(Clone, Copy)]
pub enum Pass {
    /// To its end.
    Done,
    /// To this block, for whose old bytes images went up to this set. They are gone, and the block is not yet copied or written.
    Evicted { at: u32, up_to: u32 },
}
