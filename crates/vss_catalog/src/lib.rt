//! The catalog of a group of volumes: the names of the volumes, their numbers of blocks and the sets of their images, as bytes
//! that are kept beside the devices and the area of a group that was closed.
//!
//! Contracts see a `Catalog` as a list of entries, one for each volume in order. `specs/Written.antt` has the bytes of a catalog,
//! `specs/Reading.antt` what bytes say as a catalog or why they are none, and `specs/Entries.antt` the conditions on entries.
//!
//! The contracts promise that `encode` writes just those bytes; that `decode` answers just what the bytes say, with the first
//! refusal in the order of the format; and, as laws, that what is written is read back, and that bytes which are read are those
//! that are written of what they say.
#![tactic(auto)]

mod catalog;
mod catalog_fault;
mod entry;
pub mod laws;
mod lists;
mod names;
mod reading;
mod writing;

pub use catalog::Catalog;
pub use catalog_fault::CatalogFault;
