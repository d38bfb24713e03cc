//! What blocks are filled with.

use crate::stopped::Stopped;
use block_data::{BlockBuf, Payload};
use std::alloc::Global;

/// A buffer of bytes with which few lines fill a block, so that one that was not read shows.
pub fn buffer(alloc: Global) -> Result<BlockBuf, Stopped> {
    let mut out = BlockBuf::zeroed(alloc)?;
    Payload::Fill(255).fill_into(out.bytes_mut());
    Ok(out)
}

/// The byte in each place of a block; None where they differ.
pub fn filled_with(block: &[u8]) -> Option<u8> {
    let first = *block.first()?;
    if block.iter().all(|byte| *byte == first) {
        return Some(first);
    }
    None
}

/// What the bytes of a block are.
#[derive(Clone, Copy, Debug)]
pub enum Content {
    /// This byte in every place.
    Fill(u8),
    /// This number as eight bytes, the lowest first, again and again.
    Stamp(u64),
    Other,
}

impl Content {
    /// Those of a block.
    pub fn of(block: &[u8]) -> Content {
        if let Some(byte) = filled_with(block) {
            return Content::Fill(byte);
        }
        match block.first_chunk::<8>() {
            Some(first) if block.chunks_exact(8).all(|chunk| chunk == first.as_slice()) => {
                Content::Stamp(u64::from_le_bytes(*first))
            }
            _ => Content::Other,
        }
    }
}
