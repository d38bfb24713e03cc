/// A kept image that went because a write needed its slots.
#[derive(Clone, Copy, Debug, PartialEq, Eq)]
pub struct Evicted {
    pub set: u32,
    pub volume: u32,
}
