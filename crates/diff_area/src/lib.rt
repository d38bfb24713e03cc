//! The diff area of a group of volumes on its device: slots of one block each, in which old blocks are kept, and a table
//! that says of which copy each slot is.
//!
//! Contracts see an `Area` as its device, the numbers of blocks of its volumes, and the record of each slot; an
//! `AreaView`, which lends the records and slots of bytes in memory, is seen as its bytes. `specs/Format.antt` has the
//! format as conditions on bytes, `specs/Refusals.antt` which refusal bytes get that do not meet them, and
//! `specs/Copies.antt` for which list of copies bytes stand.
//!
//! The contracts promise that a call on a slot or a record changes that one alone; that after a `sync` which answers Ok
//! the device stands for the copies that the slots and records had; that one which failed leaves the records, and each
//! block of the table old or new; that what is loaded or viewed is of the format, with what its bytes say; and that
//! each refusal is the first in the format's order. Where a device does not tell its blocks, counts and sizes are
//! promised alone. After `open_new` or `load` no call takes memory.
#![tactic(auto)]

mod area;
mod area_fault;
mod area_view;
mod encode;
mod header;
mod header_field;
mod layout;
mod loading;
mod messages;
mod reading;
mod rows;
mod table_record;
mod tables;
mod unopened;
mod writing;

pub use area::Area;
pub use area_fault::AreaFault;
pub use area_view::AreaView;
pub use header_field::HeaderField;
pub use layout::pages_for;
pub use table_record::Record;
pub use unopened::Unopened;
