/// How a session names what is backed up.
#[derive(Clone, Copy, Debug, PartialEq, Eq)]
pub enum Mode {
    /// The requestor names components, and their writers take part.
    Components,
    /// Every writer that is not disabled takes part, with all its components.
    All,
}
