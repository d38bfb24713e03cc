//! The tables of an area that stands on a device.

ghost use Rattle.std.specs.Prelude.{◌≡◌, ◌*◌, IfOk, IfErr, OnOk};
ghost use Rattle.diff_area.specs.Loading.{AreLoaded, AreRefused, IsReadAlone};

use crate::area_fault::AreaFault;
use crate::header::{Header, check_header};
use crate::layout::pages_for;
use crate::reading::read_blocks;
use crate::rows::check_table;
use crate::table_record::Record;
use crate::tables::Tables;
use block_data::BLOCK;
use std::alloc::Global;
use volume_device::Device;
use vss_names::OutOfMemory;

/// Reads the header and the table, and checks them in the format's order.
pub fn read_tables<D: Device>(alloc: Global, device: &mut D) -> Result<Tables, AreaFault>
    ensures loaded { IfOk result (AreLoaded (D.told device.old) (D.size device.old)) }
    ensures same { OnOk result (D.count device.new ≡ D.count device.old) }
    ensures refused { IfErr result (AreRefused (D.told device.old) (D.count device.old) (D.count device.new)) }
    ensures alone { IsReadAlone D.Device device.old device.new }
{
    let blocks = device.blocks();
    let first = match read_blocks(alloc, device, 0, 1_u32.min(blocks)) {
        Ok(first) => first,
        Err(fault) => return Err(fault),
    };
    let header = match check_header(alloc, &first, BLOCK * blocks as usize) {
        Ok(header) => header,
        Err(fault) => return Err(fault),
    };
    let table = match read_blocks(alloc, device, 1, pages_for(header.slots)) {
        Ok(table) => table,
        Err(fault) => return Err(fault),
    };
    let records = match check_table(alloc, &header, &table) {
        Ok(records) => records,
        Err(fault) => return Err(fault),
    };
    let Header {
        layout: _,
        slots: _,
        used: _,
        volumes,
    } = header;
    match Tables::of_records(alloc, volumes, records) {
        Ok(tables) => Ok(tables),
        Err(OutOfMemory) => Err(AreaFault::OutOfMemory),
    }
}
