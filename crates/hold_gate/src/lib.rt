//! What stops writes during a cut: the volumes whose writes are held, and the writers that stand frozen.
//!
//! A `HoldGate` keeps a flag for each volume and for each writer. Contracts see it as those two rows of flags.
//! They promise that a call changes exactly the flag that it names, that `clear` opens all, and that `may_write`
//! answers Held exactly where the volume is held, else Frozen exactly where the writer is given and frozen.
#![tactic(auto)]

mod gate3;
mod hold_gate;

pub use gate3::Gate3;
pub use hold_gate::HoldGate;
