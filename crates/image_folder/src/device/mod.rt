//! A file of a folder of images as a device, which keeps a sum of each of its blocks and gives none that has another.
//!
//! Contracts see which sum is kept of a block, and which blocks are loose: no image has what is there, so that it is read whatever its sum.

mod block_sum;
mod kept_sums;
mod laws;
mod loose;
mod lost;
mod store_device;
mod sum_table;

pub use block_sum::BlockSum;
pub use kept_sums::KeptSums;
pub use laws::two_changed_numbers_are_found;
pub use loose::Loose;
pub use lost::Lost;
pub use store_device::StoreDevice;
pub use sum_table::{SUM, SumTable};
