//! Where the lanes of a generated scenario write.

ghost use Rattle.std.specs.Prelude.{◌≡◌, ◌+◌, ◌*◌, ◌%◌, ◌^◌, ◌<◌, ◌≤◌};
ghost use Rattle.generated.specs.Draws.{stands_at, volume_at, block_at, stamp_at};

use crate::lane_write::LaneWrite;

/// The numbers of the congruence: those of the drand48 family.
const MULTIPLIER: u128 = 25_214_903_917;

const INCREMENT: u128 = 11;

const MODULUS: u128 = 281_474_976_710_656;

/// The number after one of 48 bits.
fn next_number(at: u64) -> u64
    requires { at < 2 ^ 48 }
    ensures next { result ≡ (25214903917 * at + 11) % 2 ^ 48 }
    ensures short { result < 2 ^ 48 }
{
    ((u128::from(at) * MULTIPLIER + INCREMENT) % MODULUS) as u64
}

/// Draws the writes of one lane of the scenario of a number, in order.
#[derive(Clone, Copy, Debug)]
pub struct Draws {
    number: u32,
    lane: u32,
    /// How many were drawn.
    drawn: u32,
    at: u64,
    ghost few_lanes: { lane < 16 },
    ghost few_lines: { drawn ≤ 200 },
    ghost short: { at < 2 ^ 48 },
    ghost stands: { at ≡ stands_at number lane drawn },
}

#[tactic(auto, using(crate::proofs::Ranges::stands_first, crate::proofs::Ranges::stands_next, crate::proofs::Ranges::volume_is, crate::proofs::Ranges::block_is, crate::proofs::Ranges::stamp_is))]
impl Draws {
    /// Before the first write of a lane.
    pub fn new(number: u32, lane: u32) -> Draws
        requires { lane < 16 }
        ensures number { result.number ≡ number }
        ensures lane { result.lane ≡ lane }
        ensures drawn { result.drawn ≡ 0 }
    {
        Draws {
            number,
            lane,
            drawn: 0,
            at: 16 * u64::from(number) + u64::from(lane),
        }
    }

    /// The next write of the lane.
    pub fn next(&mut self) -> LaneWrite
        requires { self.old.drawn < 200 }
        ensures volume { result.volume ≡ volume_at self.old.number self.old.lane self.old.drawn }
        ensures block { result.block ≡ block_at self.old.number self.old.lane self.old.drawn }
        ensures stamp { result.stamp ≡ stamp_at self.old.lane self.old.drawn }
        ensures number { self.new.number ≡ self.old.number }
        ensures lane { self.new.lane ≡ self.old.lane }
        ensures drawn { self.new.drawn ≡ self.old.drawn + 1 }
    {
        let at = next_number(self.at);
        let bits = at / 65_536;
        let write = LaneWrite {
            volume: (bits % 8) as u32,
            block: 16 * self.lane + ((bits / 8) % 16) as u32,
            stamp: 1_000_000 * self.lane + self.drawn,
        };
        *self = Draws {
            number: self.number,
            lane: self.lane,
            drawn: self.drawn + 1,
            at,
        };
        write
    }
}
