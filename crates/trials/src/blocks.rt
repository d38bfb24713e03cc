//! Digests of blocks against outside vectors.

use crate::page::Page;
use crate::stopped::{Done, Stopped};
use block_data::*;
use std::alloc::Global;

/// The digest of a payload's block.
fn show_payload(alloc: Global, page: &mut Page, payload: &Payload) -> Done {
    let mut out = BlockBuf::zeroed(alloc)?;
    payload.fill_into(out.bytes_mut());
    page.line(
        "payload",
        hex::encode(alloc, digest(out.bytes()).as_slice())?.as_bytes(),
    );
    Ok(())
}

/// The digest of a payload of the bytes of a block of sevens.
fn show_bytes(alloc: Global, page: &mut Page) -> Done {
    let mut sevens = BlockBuf::zeroed(alloc)?;
    Payload::Fill(7).fill_into(sevens.bytes_mut());
    show_payload(alloc, page, &Payload::Bytes(sevens))
}

/// The digest of two parts.
fn show_parts(alloc: Global, page: &mut Page, first: &[u8], second: &[u8]) -> Done {
    let mut hasher = Hasher::default();
    hasher.add(first);
    hasher.add(second);
    page.line(
        "parts",
        hex::encode(alloc, hasher.finish().as_slice())?.as_bytes(),
    );
    Ok(())
}

/// The digest of the first sector of a block of zeros and of what is behind it.
fn show_sectors(alloc: Global, page: &mut Page) -> Done {
    let zeros = BlockBuf::zeroed(alloc)?;
    let view = BlockView::new(zeros.bytes());
    show_parts(alloc, page, view.sector(0), &view.bytes()[512..])
}

/// Payloads have the digests of their blocks, which are those that coreutils' sha256sum gives for files of these bytes; parts are hashed as
/// if joined: the first two are examples of FIPS 180-4, the last is that of sha256sum for a file of 16,384 zeros.
pub fn show_blocks(alloc: Global, page: &mut Page) -> Done {
    show_payload(alloc, page, &Payload::Fill(0))?;
    show_payload(alloc, page, &Payload::Stamp(1_000_000))?;
    show_bytes(alloc, page)?;
    show_parts(alloc, page, b"", b"")?;
    show_parts(alloc, page, b"ab", b"c")?;
    show_sectors(alloc, page)
}
