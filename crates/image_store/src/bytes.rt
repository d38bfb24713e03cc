//! The length of a file, of its last block.

ghost use Rattle.std.specs.Prelude.{◌≡◌, ◌≤◌, ◌<◌, ◌+◌, ◌-◌, ◌*◌, length, drop, IfOk, IfErr};
ghost use Rattle.byteorder.specs.Endian.{little_number};

use block_data::BLOCK;
use byteorder::{ByteOrder, LittleEndian};

/// How many bytes the length of a file has.
const LENGTH: usize = 8;

/// The length that the last block of a volume says, where it leaves room for itself in so many blocks; else what it says.
pub fn length_said(last: &[u8], blocks: u32) -> Result<u64, u64>
    requires whole { length last.now ≡ BLOCK }
    requires some { 0 < blocks }
    ensures ok { IfOk result (λ n. (n ≡ little_number 8 (drop (BLOCK - 8) last.now)) × (n + 8 ≤ BLOCK * blocks)) }
    ensures err { IfErr result (λ n. (n ≡ little_number 8 (drop (BLOCK - 8) last.now)) × (BLOCK * blocks < n + 8)) }
{
    let said = LittleEndian::read_u64(&last[BLOCK - LENGTH..]);
    if said > u64::from(blocks) * BLOCK as u64 - LENGTH as u64 {
        return Err(said);
    }
    Ok(said)
}
