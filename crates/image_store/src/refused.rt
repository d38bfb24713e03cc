use crate::open_fault::OpenFault;
use volume_device::Device;

/// What was not opened as a store: why, and the area's device, where it was read, so that its own fault can be told.
#[derive(Drop)]
pub struct Refused<D: Device> {
    pub fault: OpenFault,
    pub area: Option<D>,
}
