use crate::small::Small;

/// One write of one volume, as the volume's list and the journal have it.
#[derive(Clone, Copy, Debug, PartialEq, Eq)]
pub struct Entry {
    pub volume: u32,
    pub block: u32,
    pub payload: Small,
}
