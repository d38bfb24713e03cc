//! What each block of a generated scenario ends with.

ghost use Rattle.std.specs.Prelude.{◌≡◌, ◌/◌, ◌<◌, ◌==◌, ◌&&◌, length, if◌then◌else◌};
ghost use Rattle.block_data.specs.BlockBytes.{zeros};
ghost use Rattle.write_history.specs.History.{last_bytes};
ghost use Rattle.generated.specs.Contents.{stamped, writes_to, final_bytes, final_digest};

use crate::draws::Draws;
use crate::lane_write::LaneWrite;
use block_data::{BLOCK, Hasher, Payload};

/// The number of a write, where it is to this block of this volume, or else the one found before.
fn later(found: Option<u32>, write: LaneWrite, volume: u32, block: u32) -> Option<u32>
    ensures { result ≡ (if (write.volume == volume) && (write.block == block) then Some write.stamp else found) }
{
    if write.volume == volume && write.block == block {
        Some(write.stamp)
    } else {
        found
    }
}

/// The last number that a lane writes to a block of a volume, where it writes there.
#[tactic(auto, using(crate::proofs::Ranges::first_lane, crate::proofs::Ranges::at_first, crate::proofs::Ranges::none_found_later))]
fn last_stamp(number: u32, lane: u32, volume: u32, block: u32) -> Option<u32>
    requires { lane < 16 }
    ensures { stamped result ≡ last_bytes block zeros (writes_to number lane volume) }
{
    if lane == 0 {
        return None;
    }
    let mut draws = Draws::new(number, lane);
    let mut found = None;
    for _k in 0..200u32 {
        found = later(found, draws.next(), volume, block);
    }
    found
}

/// Writes what a block ends with into `out`.
#[tactic(auto, unfolding(crate::specs::Contents::final_bytes))]
fn fill_final(number: u32, volume: u32, block: u32, out: &mut [u8])
    requires block { block < 256 }
    requires size { length out.old ≡ BLOCK }
    ensures { out.new ≡ final_bytes number volume block }
{
    match last_stamp(number, block / 16, volume, block) {
        None => Payload::Fill(0).fill_into(out),
        Some(stamp) => Payload::Stamp(u64::from(stamp)).fill_into(out),
    }
}

/// The SHA-256 of all blocks of a volume as they end, in order. What `buffer` holds before does not matter.
pub fn final_digest(number: u32, volume: u32, buffer: &mut [u8]) -> [u8; 32]
    requires { length buffer.old ≡ BLOCK }
    ensures digest { result ≡ final_digest number volume }
    ensures len { length result ≡ 32 }
{
    let mut hasher = Hasher::new();
    for block in 0..256 {
        fill_final(number, volume, block, buffer);
        hasher.add(buffer);
    }
    hasher.finish()
}
