//! A coordinated backup of real files, as a machine without input or output: it takes what happened, makes all moves of the service that may
//! come now, and answers whether it waits.
//!
//! `Backup` drives a `Service` over volumes of one block, which stands for the protocol alone, and a `Copier`, which moves the data. What it
//! says, hears, reads and keeps is in its `Ledger`, whose contracts promise that a set that is kept is of one moment. `Job` reads the text
//! of a job, `Setting` makes the scenario of it, and `Recorder` has the run as a scenario.

mod backup;
mod events;
mod happened;
mod job;
mod job_fault;
mod members;
mod next;
mod place;
mod recorder;
mod setting;
mod why;

pub use backup::Backup;
pub use happened::Happened;
pub use job::{Holding, Job, JobVolume, JobWriter, Taken};
pub use job_fault::{JobFault, JobReason};
pub use members::Members;
pub use next::Next;
pub use setting::{Setting, SettingFault};
pub use why::Why;
