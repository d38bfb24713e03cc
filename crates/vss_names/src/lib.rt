//! The words that all other crates share.
//!
//! The tables of the Volume Shadow Copy Service: nine enums, each with its names, and seven of them with the SDK's
//! numbers. The small owned lists `Text` and `Numbers`. `OutOfMemory`, the one error that any call which allocates may
//! answer. The grammar of names, and the greatest numbers of images, volumes, blocks, slots and writers.
//!
//! Contracts see an enum as its variant, a `Text` as its bytes and its spare, and `Numbers` as a list. For each
//! enum `specs/` has the table, `number_of` and `name_of`. `of_number` and `of_name` are proved to look up in it
//! both ways: a row that is found has the number or name, every row is found by its own, and the answer is none
//! exactly where no row has it. A call on a `Text` that needs memory succeeds where the spare is enough, and
//! else changes nothing where it fails.
//!
//! `specs/Faults.antt` has the vocabulary in which every object of the outside says that a call failed only
//! where its count of faults rose. `FailingCalls` are the calls of an object in memory, of which those fail that are
//! planned to, and no others.
#![tactic(auto)]

mod component_type;
mod context;
mod failed;
mod failing_calls;
mod level;
mod limits;
mod names;
mod numbers;
mod order;
mod out_of_memory;
mod set_outcome;
mod source_kind;
mod text;
mod usage;
mod vss_result;
mod writer_error;
mod writer_state;

pub use component_type::ComponentType;
pub use context::Context;
pub use failed::Failed;
pub use failing_calls::FailingCalls;
pub use level::Level;
pub use limits::{
    MOST_BLOCKS, MOST_IMAGES, MOST_NAME, MOST_SLOTS, MOST_VOLUMES, MOST_VOLUMES_OF_A_SET,
    MOST_WRITERS,
};
pub use names::is_name;
pub use numbers::Numbers;
pub use order::Order;
pub use out_of_memory::OutOfMemory;
pub use set_outcome::SetOutcome;
pub use source_kind::SourceKind;
pub use text::Text;
pub use usage::Usage;
pub use vss_result::VssResult;
pub use writer_error::WriterError;
pub use writer_state::WriterState;
