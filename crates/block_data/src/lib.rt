//! Blocks of 16,384 bytes: what volumes, images and diff areas are made of, and how they are digested.
//!
//! Contracts see a `BlockBuf`, which owns a block, and a `BlockView`, which borrows one, as the list of its bytes;
//! that list always has `BLOCK` members. A `Payload` is seen as it is, and `payload_bytes` gives the bytes that it
//! writes. What a `Hasher` holds is said by `HasTaken hasher bytes`: the parts that it took, joined, are these bytes.
//!
//! The contracts promise the exact bytes that a payload writes and a view lends, and that a digest is the SHA-256
//! of the bytes, or of the parts in order. Only `BlockBuf::zeroed` and `BlockBuf::copy` take memory.
#![tactic(auto)]

mod block_buf;
mod block_view;
mod hasher;
mod payload;

pub use block_buf::{BLOCK, BlockBuf};
pub use block_view::{BlockView, SECTOR, SECTORS};
pub use hasher::{Hasher, digest};
pub use payload::Payload;
