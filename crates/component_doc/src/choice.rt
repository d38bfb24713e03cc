/// A component that a backup takes.
#[derive(Clone, Copy, Debug, PartialEq, Eq)]
pub struct Choice {
    /// The writer's number, in order of registration.
    pub writer: u32,
    /// The component's place in the writer's metadata.
    pub component: u32,
    /// Whether the requestor named it.
    pub explicit: bool,
}
