use vss_names::Context;

/// The facts of a set that replies show.
#[derive(Clone, Copy, Debug, PartialEq, Eq)]
pub struct SetFacts {
    pub context: Context,
    pub complete: bool,
    /// The tick at which its images were cut.
    pub cut_at: Option<u64>,
}
