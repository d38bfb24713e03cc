//! The provider: the volumes of a scenario in their groups, and the set that is being prepared.
//!
//! This is the room that alone knows groups. Contracts see a `Provider` as its groups, in their order, with the number and the volumes
//! of the set that is being prepared; `specs/Groups.antt` says for which histories, one for each volume of the scenario, the groups
//! stand together, and each call for which they stand afterwards. All memory but that of `digests` is taken by `new`.
#![tactic(auto)]

mod digested;
mod digesting;
mod digests_of;
mod dropping;
mod ending;
mod hashing;
mod making;
mod preparing;
mod provider;
mod ready_digests;
mod renumbering;

pub use digested::Digested;
pub use digests_of::DigestsOf;
pub use provider::Provider;
pub use ready_digests::ReadyDigests;
