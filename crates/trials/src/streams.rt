//! Streams that end, fail and are full.

use crate::page::Page;
use crate::stopped::Done;
use io_edge::{MemSink, MemSource, Sink, read_all, write_all};
use std::alloc::Global;
use vss_names::Numbers;

/// What comes of reading all, where a call of the source fails.
fn show_all(alloc: Global, page: &mut Page, failing: u32, limit: usize) -> Done {
    let failing = Numbers::copy(alloc, &[failing])?;
    let mut source = MemSource::new(b"thawed".to_vec(alloc)?, 2, failing);
    match read_all(alloc, &mut source, limit) {
        Ok(text) => page.line("all", text.bytes()),
        Err(error) => page.show("all", &error),
    }
    page.line("left", source.left());
    Ok(())
}

/// What comes of writing all, where a call of the sink fails or its room ends.
fn show_written(alloc: Global, page: &mut Page, failing: u32, room: usize) -> Done {
    let failing = Numbers::copy(alloc, &[failing])?;
    let mut sink = MemSink::with_room(alloc, room, failing)?;
    page.show("written", &write_all(&mut sink, b"committed"));
    page.line("taken", sink.taken());
    Ok(())
}

/// A sink takes no more than its room.
fn show_sink(alloc: Global, page: &mut Page) -> Done {
    let mut sink = MemSink::with_room(alloc, 3, Numbers::new(alloc))?;
    page.show("write", &sink.write(b"abcd"));
    page.show("write", &sink.write(b"d"));
    page.show("faults", &sink.faults());
    page.line("taken", sink.taken());
    Ok(())
}

/// All of these.
pub fn show_streams(alloc: Global, page: &mut Page) -> Done {
    show_sink(alloc, page)?;
    for (failing, limit) in [(9u32, 6usize), (9, 5), (2, 6)] {
        show_all(alloc, page, failing, limit)?;
    }
    for (failing, room) in [(9u32, 9usize), (9, 6), (1, 9)] {
        show_written(alloc, page, failing, room)?;
    }
    Ok(())
}
