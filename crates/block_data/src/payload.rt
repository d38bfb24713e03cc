ghost use Rattle.std.specs.Prelude.{◌≡◌, ◌+◌, ◌*◌, ◌/◌, ◌%◌, ◌<◌, ◌≤◌, ◌++◌, length, take, drop};
ghost use Rattle.block_data.specs.BlockBytes.{run_of, repeated};

use crate::block_buf::{BLOCK, BlockBuf};

/// What a write puts into a block.
#[derive(Debug, Drop)]
pub enum Payload {
    /// This byte in every place.
    Fill(u8),
    /// This number as 8 bytes, the lowest first, again and again up to the end of the block.
    Stamp(u64),
    /// These bytes.
    Bytes(BlockBuf),
}

/// Writes one byte into every place.
#[tactic(auto, unfolding(crate::specs::BlockBytes::run_of))]
fn fill(out: &mut [u8], byte: u8)
    ensures { out.new ≡ run_of (length out.old) byte }
{
    out.fill(byte);
}

/// Writes the first `len` bytes once more, from the place `at` on.
fn copy_front(out: &mut [u8], at: usize, len: usize)
    requires front { len ≤ at }
    requires room { at + len ≤ length out.old }
    ensures { out.new ≡ take at out.old ++ take len out.old ++ drop (at + len) out.old }
{
    let (front, rest) = out.split_at_mut(at);
    rest[..len].copy_from_slice(&front[..len]);
}

/// Writes one word again and again up to the end, each time as much as there is already.
fn repeat(out: &mut [u8], word: [u8; 8])
    requires some { 0 < length out.old }
    requires whole { length out.old % 8 ≡ 0 }
    ensures { out.new ≡ repeated (length out.old / 8) word }
{
    out[..8].copy_from_slice(&word);
    let words = out.len() / 8;
    let mut done = 1;
    while done < words {
        let more = done.min(words - done);
        copy_front(out, 8 * done, 8 * more);
        done += more;
    }
}

impl Payload {
    ghost use Rattle.block_data.specs.BlockBytes.{payload_bytes};

    /// Writes the block's bytes into `out`.
    pub fn fill_into(&self, out: &mut [u8])
        requires { length out.old ≡ BLOCK }
        ensures { out.new ≡ payload_bytes self.now }
    {
        match self {
            Payload::Fill(byte) => fill(out, *byte),
            Payload::Stamp(number) => repeat(out, number.to_le_bytes()),
            Payload::Bytes(block) => out.copy_from_slice(block.bytes()),
        }
    }
}
