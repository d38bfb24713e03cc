//! What a backup of real files has done, in order, and what it may do next.
//!
//! Contracts see a `Ledger` as the writers that take part, the volumes of the set, and the list of deeds: what was said to whom and heard of
//! whom, and what was read and kept. The ledger itself calls the copier, and does so only if its deeds allow it (`specs/Deeds.antt`). So the
//! contracts promise of each list of deeds that a set was kept only if it is of one moment (`specs/Deeds.antt`), whatever its caller asks.
#![tactic(auto)]

mod copier;
mod deed;
mod ledger;
mod looking;
mod undone;

pub use copier::Copier;
pub use deed::Deed;
pub use ledger::Ledger;
pub use undone::Undone;
