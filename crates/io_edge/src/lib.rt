//! Bytes that come in and bytes that go out.
//!
//! A `Source` is seen as the bytes that it has left and a `Sink` as the bytes that it took, each where it tells
//! them, beside a count of faults that never falls. Contracts promise that a read gives the next bytes and a write
//! takes the first ones, that the end comes exactly where nothing is left, and that a call fails only where the
//! count rose and then takes nothing. `MemSource` and `MemSink` say exactly which call fails; `InSource` and
//! `OutSink` are the real streams, which tell no bytes. `read_all` and `write_all` go to the end.
#![tactic(auto)]

mod in_source;
mod mem_sink;
mod mem_source;
mod out_sink;
mod reading;
mod sink;
mod source;
mod writing;

pub use in_source::InSource;
pub use mem_sink::MemSink;
pub use mem_source::MemSource;
pub use out_sink::OutSink;
pub use reading::{ReadError, read_all};
pub use sink::Sink;
pub use source::Source;
pub use writing::write_all;
