use crate::told::Told;
use vss_names::{Order, SetOutcome};

/// What a move came to: its reply and its effects, but for the evicted images, which are listed beside.
#[derive(Clone, Copy)]
pub struct Outcome {
    pub told: Told,
    /// The writers that a spent limit lost in this move: bit j for writer j.
    pub lost: u64,
    /// The order that they did not answer.
    pub lost_order: Option<Order>,
    /// The set that completed or failed in this move, or 0.
    pub set: u32,
    pub result: SetOutcome,
}
