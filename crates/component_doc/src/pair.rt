ghost use Rattle.std.specs.Prelude.{◌≡◌};
ghost use Rattle.component_doc.specs.Selection.{comes_before};

/// A component by its writer and its place in the writer's metadata.
#[derive(Clone, Copy, Debug, PartialEq, Eq)]
pub struct Pair {
    /// The writer's number, in order of registration.
    pub writer: u32,
    /// The component's place in the writer's metadata.
    pub component: u32,
}

impl Pair {
    /// Whether this pair stands before the other in the order of writers and then of components.
    pub(crate) fn comes_before(self, other: Pair) -> bool
        ensures { result ≡ comes_before self other }
    {
        self.writer < other.writer
            || (self.writer == other.writer && self.component < other.component)
    }
}
