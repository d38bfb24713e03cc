/// A component that was looked up by its full name.
#[derive(Clone, Copy, Debug, PartialEq, Eq)]
pub(crate) struct Found {
    /// The component's place in the writer's metadata.
    pub component: u32,
    /// Whether a requestor may choose it by itself.
    pub selectable: bool,
}
