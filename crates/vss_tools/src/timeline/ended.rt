use crate::timeline::refusal::Refusal;

/// How the drawing of a report ended.
#[derive(Clone, Copy)]
pub enum Ended {
    /// The picture was written.
    Written,
    /// A line of the report is refused. Nothing was written.
    Refused(Refusal),
    /// A write failed; a first part of the picture is out.
    WriteFault,
    /// Memory was refused. Nothing was written.
    OutOfMemory,
}
