/// A part of an area's header, in the order in which they are checked.
#[derive(Clone, Copy, Debug, PartialEq, Eq)]
pub enum HeaderField {
    /// The eight letters with which an area begins.
    Magic,
    /// The number of the layout.
    Layout,
    /// The number of slots, which has to fit the device.
    Slots,
    /// The number of records that are not free. It is checked last, after the records.
    Used,
    /// The number of volumes.
    Volumes,
    /// The number of blocks of a volume.
    Blocks,
    /// The bytes that have to be zero.
    Rest,
}
