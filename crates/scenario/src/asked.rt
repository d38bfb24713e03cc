use vss_names::Order;

/// Which order of which writer an `answer` line speaks of.
#[derive(Clone, Copy)]
pub(crate) struct Asked {
    pub writer: u32,
    pub order: Order,
    /// Counted from 1.
    pub nth: u32,
}
