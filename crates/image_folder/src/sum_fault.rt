//! What is said of a device that failed.

use crate::device::{Lost, StoreDevice};
use crate::ended::by_device;
use crate::program::Program;
use crate::state::{Row, row_in};
use crate::status::Status;
use block_data::BLOCK;

/// Says that a block of a volume has another sum.
fn say_block(program: &Program, device: &StoreDevice, index: u32) -> Status {
    let path = device.path();
    let more = if device.is_free(index) {
        ""
    } else {
        ", and so do images"
    };
    ended!(*program, Damaged; "{path}: block {index}: its sum is another than is kept; the volume shows it{more}")
}

/// Says that a slot with this row has another sum, of the volume with this path.
fn say_row(program: &Program, path: &str, slot: usize, row: Row, of: &str) -> Status {
    let Row { set, block, .. } = row;
    ended!(*program, Damaged; "{path}: slot {slot}: its sum is another than is kept; it has block {block} of {of} for set {set}")
}

/// Says that a block of the area has another sum: a slot, which has a block of one of these volumes.
fn say_slot(program: &Program, area: &StoreDevice, index: u32, volumes: &[StoreDevice]) -> Status {
    let (path, front) = (area.path(), area.front().len() / BLOCK);
    let slot = (index as usize).saturating_sub(front);
    let Some(row) = row_in(area.front(), slot) else {
        return ended!(*program, Damaged; "{path}: slot {slot}: its sum is another than is kept");
    };
    let of = match volumes.get(row.volume as usize) {
        Some(volume) => volume.path(),
        None => "",
    };
    say_row(program, path, slot, row, of)
}

/// Says that a block of a device has another sum. The area is that of these volumes.
pub fn say_other(
    program: &Program,
    device: &StoreDevice,
    index: u32,
    volumes: &[StoreDevice],
) -> Status {
    if device.front().is_empty() {
        say_block(program, device, index)
    } else {
        say_slot(program, device, index, volumes)
    }
}

/// Says which call on the file of a device failed last, if one did. The status with which the call ends is answered.
pub fn fault_of(program: &Program, device: StoreDevice) -> Option<Status> {
    match device.lost() {
        Some(Lost::Missing) => Some(Status::FolderFault),
        Some(Lost::Damaged) => Some(Status::Damaged),
        None => match device.into_fault() {
            None => None,
            fault => Some(by_device(program, fault)),
        },
    }
}
