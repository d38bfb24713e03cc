use vss_names::{Order, SetOutcome};

/// What a call of a coordinator did. Bit w of a number is set exactly for a writer w.
#[derive(Clone, Copy, Debug, PartialEq, Eq)]
pub struct Effects {
    /// The writers that stand frozen no longer.
    pub thawed: u64,
    /// The writers that stand frozen from now on.
    pub frozen: u64,
    /// The writers that were lost, at the order below.
    pub lost: u64,
    pub lost_order: Option<Order>,
    /// What has become of the set that was in progress; Running where none was.
    pub outcome: SetOutcome,
    /// Whether the agenda that ran, or the one that the call began, has ended.
    pub agenda_ended: bool,
}
