use crate::pass_fault::PassFault;

/// Why a part of a file was not captured.
#[derive(Clone, Copy)]
pub enum CaptureFault {
    /// The file, the volume or the area failed.
    Pass(PassFault),
    /// The spool failed, and its count of faults rose.
    Spool,
}
