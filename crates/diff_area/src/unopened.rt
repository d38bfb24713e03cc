use crate::area_fault::AreaFault;
use volume_device::Device;

/// A device that was not opened as an area, given back with its count of faults as it is now.
#[derive(Debug, Drop)]
pub struct Unopened<D: Device> {
    pub device: D,
    pub fault: AreaFault,
}
