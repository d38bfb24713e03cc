ghost use Rattle.std.specs.Prelude.{◌≡◌, ◌≤◌, ◌+◌, ◌*◌, length};
ghost use Rattle.image_folder.specs.KeptSums.{number_at, sum_of};

use block_data::BLOCK;
use std::simd::{u8x4, u32x1};

/// How many numbers of four bytes a block has.
const NUMBERS: usize = BLOCK / 4;

/// The sum of a block: two numbers, after Fletcher. Both are zero for a block of zeros.
#[derive(Clone, Copy, PartialEq, Eq)]
pub struct BlockSum {
    pub first: u64,
    pub second: u64,
}

/// The number at a place of a block. It is read as a vector, since a call for each number would take most of the time.
#[inline(always)]
fn number_of(block: &[u8], place: usize) -> u32
    requires { 4 * place + 4 ≤ length block.now }
    ensures { result ≡ number_at place block.now }
{
    u32x1::from_le_bytes(u8x4::from_slice(&block[4 * place..])).to_array()[0]
}

impl BlockSum {
    /// That of a block of zeros.
    pub const ZERO: BlockSum = BlockSum {
        first: 0,
        second: 0,
    };

    /// That of the 16,384 bytes of a block.
    pub fn of(block: &[u8]) -> BlockSum
        requires { length block.now ≡ BLOCK }
        ensures { result ≡ sum_of block.now }
    {
        let (mut first, mut second) = (0u64, 0u64);
        for place in 0..NUMBERS {
            first += u64::from(number_of(block, place));
            second += first;
        }
        BlockSum { first, second }
    }
}
