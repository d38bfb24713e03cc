use crate::timeline::refusal::Refusal;

/// Why a report has no picture.
#[derive(Clone, Copy)]
pub enum PictureError {
    /// A line of it is refused.
    Refused(Refusal),
    OutOfMemory,
}
