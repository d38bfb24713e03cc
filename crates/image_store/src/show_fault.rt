/// Why a file was not shown, or not to its end.
#[derive(Clone, Copy, Debug, PartialEq, Eq)]
pub enum ShowFault {
    /// No image of this set stands on the volume.
    NoSuchImage,
    /// The last block says a length, in bytes, that has no room in the volume. Nothing was written.
    BadLength { found: u64 },
    /// The volume's device failed, and its count of faults rose.
    Volume,
    /// The diff area's device failed, and its count of faults rose.
    Area,
    /// The sink failed, and its count of faults rose.
    Sink,
}
