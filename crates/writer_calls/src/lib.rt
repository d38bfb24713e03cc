//! Orders to writers and their answers.
//!
//! `Mailboxes` has a mailbox for each writer: how many orders of each kind it was sent, and the one that is open.
//! Contracts see a list with one mailbox a writer. They promise that each call changes exactly one mailbox, that an
//! order's number is one more than that of the order before, that its nth counts the orders of its kind alone, and
//! that an answer is taken exactly where it names the open order. No call after `new` takes memory.
//!
//! `VssWriter` is a writer of one's own, in a box too, and `ScriptedWriter` one that answers by a script, seen as its rows and the
//! number of aborts that it was told of. It answers what the definition of a script says.
#![tactic(auto)]

mod answer;
mod boxed_writer;
mod mailbox;
mod mailboxes;
mod order_counts;
mod scripted;
mod scripted_writer;
mod stale_answer;
mod standing;
mod vss_writer;

pub use answer::Answer;
pub use mailbox::Mailbox;
pub use mailboxes::Mailboxes;
pub use order_counts::OrderCounts;
pub use scripted::Scripted;
pub use scripted_writer::ScriptedWriter;
pub use stale_answer::StaleAnswer;
pub use standing::Standing;
pub use vss_writer::VssWriter;
