/// The SHA-256 of a volume, or of the image of a set on it.
#[derive(Clone, Copy, Debug, PartialEq, Eq)]
pub struct Digested {
    pub volume: u32,
    /// None where it is of the volume itself.
    pub set: Option<u32>,
    /// None where it is not made.
    pub digest: Option<[u8; 32]>,
}
