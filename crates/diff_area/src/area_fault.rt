use crate::header_field::HeaderField;

/// Why a call on an area failed.
#[derive(Clone, Copy, Debug, PartialEq, Eq)]
pub enum AreaFault {
    /// The device failed, and its count of faults rose.
    Device,
    /// The header is not of the format: this field has what was found there.
    BadHeader {
        field: HeaderField,
        found: u32,
    },
    /// The record of this slot is not of the format. In the first layout its volume is 0.
    BadRecord {
        slot: u32,
        set: u32,
        block: u32,
        volume: u32,
    },
    /// Memory was refused.
    OutOfMemory,
}
