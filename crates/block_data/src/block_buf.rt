ghost use Rattle.std.specs.Prelude.{◌≡◌, length, vec_len, IfOk};
ghost use Rattle.std.specs.Borrow.{sem};
ghost use Rattle.block_data.specs.BlockBytes.{LendsBytes, run_of, zeros};

use std::alloc::Global;
use std::marker::Model;
use vss_names::OutOfMemory;

/// The number of bytes of a block: 16 KiB, the unit in which the service's system provider copies what is about to
/// be overwritten (its SDK documentation).
pub const BLOCK: usize = 16384;

/// An owned block. Contracts see it as its list of bytes, which has `BLOCK` members.
#[derive(Debug, Drop)]
pub struct BlockBuf {
    bytes: Vec<u8>,
}

impl Model for BlockBuf {
    ghost use Rattle.std.specs.Prelude.{◌≡◌, ℕ, List, length};
    ghost use Rattle.block_data.specs.declared.block_buf.TheConstants.{BLOCK};

    ghost Value = { List ℕ };

    ghost view = { λ b. b.bytes.items };

    ghost invariant = { λ b. length b.bytes.items ≡ BLOCK };
}

/// So many bytes that are zero.
#[tactic(auto, unfolding(crate::specs::BlockBytes::run_of))]
fn zero_bytes(alloc: Global, count: usize) -> Result<Vec<u8>, OutOfMemory>
    ensures { IfOk result (λ bytes. bytes.items ≡ run_of count 0) }
{
    Ok(vec![in alloc; 0; count]?)
}

impl BlockBuf {
    /// A block of zeros.
    #[tactic(auto, using(crate::proofs::RunsOfBytes::length_zeros))]
    pub fn zeroed(alloc: Global) -> Result<BlockBuf, OutOfMemory>
        ensures { IfOk result (λ block. block ≡ zeros) }
    {
        let bytes = zero_bytes(alloc, BLOCK)?;
        Ok(BlockBuf { bytes })
    }

    /// A block of its own with a copy of these bytes.
    pub fn copy(alloc: Global, block: &[u8]) -> Result<BlockBuf, OutOfMemory>
        requires { length block.now ≡ BLOCK }
        ensures { IfOk result (λ copy. copy ≡ block.now) }
    {
        Ok(BlockBuf {
            bytes: block.to_vec(alloc)?,
        })
    }

    /// A block of these bytes, without taking memory.
    pub fn of(bytes: Vec<u8>) -> BlockBuf
        requires { vec_len bytes ≡ BLOCK }
        ensures { result ≡ bytes.items }
    {
        BlockBuf { bytes }
    }

    /// The block's 16,384 bytes.
    pub fn bytes(&self) -> &[u8]
        ensures bytes { result.now ≡ self.now }
        ensures len { length result.now ≡ BLOCK }
    {
        &self.bytes
    }

    /// Lends the bytes to be written.
    pub fn bytes_mut(&mut self) -> &mut [u8]
        ensures bytes { result.now ≡ self.old }
        ensures len { length result.now ≡ BLOCK }
        ensures* writes_back { sem 𝓛 (LendsBytes self.entry result) }
    {
        &mut self.bytes
    }

    /// The bytes, without taking memory.
    pub fn into_vec(self) -> Vec<u8>
        ensures bytes { result.items ≡ self }
        ensures len { vec_len result ≡ BLOCK }
    {
        self.bytes
    }
}
