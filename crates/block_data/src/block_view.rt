ghost use Rattle.std.specs.Prelude.{◌≡◌, ◌<◌, ◌+◌, ◌≤◌, length, take, drop};
ghost use Rattle.block_data.specs.BlockBytes.{sector};

use crate::block_buf::BLOCK;
use std::marker::Model;

/// The number of bytes of a sector.
pub const SECTOR: usize = 512;

/// The number of sectors of a block.
pub const SECTORS: u32 = 32;

/// A block that is borrowed, and lends its sectors. Contracts see it as its list of bytes, which has `BLOCK`
/// members.
#[derive(Debug, Drop)]
pub struct BlockView<'a> {
    bytes: &'a [u8],
}

impl<'a> Model for BlockView<'a> {
    ghost use Rattle.std.specs.Prelude.{◌≡◌, ℕ, List, length};
    ghost use Rattle.block_data.specs.declared.block_buf.TheConstants.{BLOCK};

    ghost Value = { List ℕ };

    ghost view = { λ v. v.bytes.now };

    ghost invariant = { λ v. length v.bytes.now ≡ BLOCK };
}

/// The `len` bytes from the place `at` on.
fn part(bytes: &[u8], at: usize, len: usize) -> &[u8]
    requires { at + len ≤ length bytes.now }
    ensures part { result.now ≡ take len (drop at bytes.now) }
    ensures len { length result.now ≡ len }
{
    &bytes[at..at + len]
}

impl<'a> BlockView<'a> {
    /// A view of these bytes, which are a whole block.
    pub fn new(block: &'a [u8]) -> BlockView<'a>
        requires { length block.now ≡ BLOCK }
        ensures { result ≡ block.now }
    {
        BlockView { bytes: block }
    }

    /// The block's 16,384 bytes.
    pub fn bytes(&self) -> &'a [u8]
        ensures bytes { result.now ≡ self.now }
        ensures len { length result.now ≡ BLOCK }
    {
        self.bytes
    }

    /// Lends sector `i`, counted from 0.
    #[tactic(auto, unfolding(crate::specs::BlockBytes::sector))]
    pub fn sector(&self, i: u32) -> &'a [u8]
        requires { i < SECTORS }
        ensures sector { result.now ≡ sector self.now i }
        ensures len { length result.now ≡ SECTOR }
    {
        part(self.bytes, SECTOR * i as usize, SECTOR)
    }
}
