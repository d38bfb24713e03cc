//! Devices of blocks, and the makers that they come from.
//!
//! The traits `Device` and `Maker` are all that the crates above know of storage. Contracts see a device as its
//! blocks and those of them that last, where it tells them, its size, its count of faults and whether it lends; and a
//! maker as the names of the devices that it made, the devices that it got back, its free places and its count. A call
//! that fails raised the count and left what is told as it was; one that is answered Ok left the count as it was.
//! Devices in memory fail exactly where they were planned to. Devices in files tell nothing, and keep their last failed call.
#![tactic(auto)]

mod device;
mod file_call;
mod file_device;
mod file_fault;
mod host_device;
mod host_maker;
mod made_file;
mod make_fault;
mod maker;
mod mem_device;
mod mem_maker;
mod plan;
mod planned;
mod store;

pub use device::Device;
pub use file_call::FileCall;
pub use file_device::FileDevice;
pub use file_fault::FileFault;
pub use host_device::HostDevice;
pub use host_maker::HostMaker;
pub use make_fault::MakeFault;
pub use maker::Maker;
pub use mem_device::MemDevice;
pub use mem_maker::MemMaker;
pub use planned::Planned;
pub use store::Store;
