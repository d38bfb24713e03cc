//! Runs of a scenario in an order of moves that is given, told by a report, or drawn by a number.
//!
//! `run_order` takes the bytes of a scenario and of an order, and `run_seed` a number in place of the order; at `Done` they have written
//! the report of a legal and complete trail that begins with the order, or that the number draws. `run_again` takes a report, makes its
//! moves with their fault marks over devices of which no call fails, and compares: the text is `Same` exactly where it is such a report,
//! of a trail that is legible. `report_of_told` goes on in turn behind the moves that a text tells. Every other status has its cause in the texts or
//! in a count of faults that rose; want of memory alone has none. `specs/Calls.antt` and `specs/Again.antt` have what they promise,
//! `specs/Order.antt` which text is which order, `specs/Drawn.antt` which order a number draws.
//!
//! A run may be over devices of any maker: over those of `SureMaker`, of which no call ever fails, no move has a fault mark.
#![tactic(auto)]

mod asked;
mod comparing;
mod drawing;
mod entry;
mod following;
mod halted;
pub mod laws;
mod order_fault;
mod order_lines;
mod other;
mod playing;
mod reading;
mod replayed;
mod replaying;
mod running;
mod status;
mod sure_device;
mod sure_maker;
mod telling;
mod unplayed;
mod why;

pub use entry::Entry;
pub use order_fault::OrderFault;
pub use playing::report_of_seed;
pub use reading::order_of;
pub use replayed::Replayed;
pub use replaying::{report_of_told, run_again, run_again_over};
pub use running::{run_order, run_seed};
pub use status::Status;
pub use sure_device::SureDevice;
pub use sure_maker::SureMaker;
pub use telling::MOST_BYTES;
pub use why::Why;
