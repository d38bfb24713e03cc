use vss_names::SetOutcome;

/// The set that completed or failed in a move, and number 0 where none did.
#[derive(Clone, Copy)]
pub struct Ended {
    pub set: u32,
    pub result: SetOutcome,
}
