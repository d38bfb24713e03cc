/// An image, how many slots hold copies for it, and one of them, which leads to the others.
#[derive(Clone, Copy, Debug, PartialEq, Eq)]
pub struct ImageCount {
    pub set: u32,
    pub used: u32,
    /// The slot that was noted last. It says nothing where there is none.
    pub first: u32,
}
