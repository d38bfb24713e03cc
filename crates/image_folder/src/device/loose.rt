/// What becomes of a block with another sum than is kept, if no image has what is there.
#[derive(Clone, Copy, PartialEq, Eq)]
pub enum Loose {
    /// It is refused.
    Refused,
    /// It is read: it does not count, or it is compared with what takes its place.
    Read,
    /// It is read, and its sum is kept from then on: its volume is in transit.
    Kept,
}
