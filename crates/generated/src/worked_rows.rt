//! Worked runs: small scenarios whose whole runs are computed from the definitions, each as a law.
//!
//! Each function does nothing; its contract says which trail of a scenario is legal and complete, and what its report is, or what a short
//! history of one volume reads, shows and uses. The expected texts were written down before the definitions, so they show what the
//! definitions mean.

pub mod cut;
pub mod histories;
pub mod images;
pub mod limits;
pub mod writers;
