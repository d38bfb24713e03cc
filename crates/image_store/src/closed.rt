use cow_volume::Cause;
use volume_device::Device;

/// What a store was taken apart into, and whether all of it lasts.
#[derive(Drop)]
pub struct Closed<D: Device> {
    pub devices: Vec<D>,
    pub area: D,
    pub outcome: Result<(), Cause>,
}
