use diff_area::AreaFault;

/// How the inspection of an area ended.
#[derive(Clone, Copy, Debug, PartialEq, Eq)]
pub enum Inspection {
    /// The listing was written.
    Listed,
    /// The input is no area: the first refusal of its format. Nothing was written.
    Refused(AreaFault),
    /// A read of the input failed.
    ReadFault,
    /// A write of the output failed; a first part of the listing is out.
    WriteFault,
    /// The input has more than 1,074,806,784 bytes.
    TooLong,
    OutOfMemory,
}
