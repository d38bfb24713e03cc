/// Why a call on a volume failed.
#[derive(Clone, Copy, Debug, PartialEq, Eq)]
pub enum Cause {
    /// The volume has no such block.
    NoSuchBlock,
    /// The volume's device failed, and its count of faults rose.
    Volume,
    /// The diff area's device failed, and its count of faults rose.
    Area,
}
