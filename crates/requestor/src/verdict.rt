use vss_names::VssResult;

/// What the checks say of a session call.
#[derive(Clone, Copy, Debug, PartialEq, Eq)]
pub enum Verdict {
    Go,
    /// The call waits: for another lane's session to end, or for the running agenda.
    Blocked,
    Refused(VssResult),
}
