use crate::vss_result::VssResult;

/// How it stands with a snapshot set, from the moment it is begun.
#[derive(Clone, Copy, Debug, PartialEq, Eq, Hash)]
pub enum SetOutcome {
    /// The set is in progress.
    Running,
    /// All images of the set were made, and its writers were told so.
    Complete,
    /// The set was given up, for the cause that the result names.
    Failed(VssResult),
}
