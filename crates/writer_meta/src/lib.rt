//! A writer's metadata: who it is, at which level it is frozen, and which components it has; and the JSON document that
//! says so.
//!
//! Contracts see the metadata as plain bytes and a list of parts (`specs/Metadata.antt`), and a document as what it says
//! or the first refusal in the order of its format (`specs/Document.antt`, over the values of `specs/Values.antt`).
//! Reading answers exactly that, but for want of memory. What is read is allowed (`specs/Document.antt`), and what is
//! written of allowed metadata (`specs/Metadata.antt`) reads back as these metadata.
#![tactic(auto)]

mod component;
mod components;
mod distinct;
mod field;
mod meta_fault;
mod metadata;
mod part_values;
mod rows;
mod shown;
mod unknown;
mod utf8;
mod values;

pub use component::Component;
pub use components::Components;
pub use field::Field;
pub use meta_fault::MetaFault;
pub use metadata::Metadata;
