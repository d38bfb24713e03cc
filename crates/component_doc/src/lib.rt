//! The components that a backup takes: which a requestor has chosen, which come with them, and the document that says
//! so.
//!
//! `specs/Selection.antt` has who takes part and what is chosen, `specs/Document.antt` the component document and which
//! texts are one, `specs/Over.antt` which selections there are over a list of metadata. Reading names the components that
//! a document says are explicit (`specs/Reading.antt`), writes the document of that selection again and compares the
//! bytes; so a text is accepted exactly where it is a document.
#![tactic(auto)]

mod above;
mod add_fault;
mod ancestors;
mod both;
mod choice;
mod choices;
mod chosen;
mod doc_fault;
mod found;
mod metas;
mod pair;
mod pairs;
mod reading;
mod selection;
mod taken;
mod written;

pub use add_fault::AddFault;
pub use choice::Choice;
pub use choices::Choices;
pub use doc_fault::DocFault;
pub use metas::Metas;
pub use pair::Pair;
pub use selection::Selection;
