ghost use Rattle.std.specs.Prelude.{◌≡◌};
ghost use Rattle.vss_shards.specs.Journals.{payload_of};

use block_data::Payload;

/// What a write puts into a block, small enough to be kept in a list.
#[derive(Clone, Copy, Debug, PartialEq, Eq)]
pub enum Small {
    /// This byte in every place.
    Fill(u8),
    /// This number as 8 bytes, the lowest first, again and again up to the end of the block.
    Stamp(u64),
}

impl Small {
    /// The same as a payload.
    pub fn payload(self) -> Payload
        ensures { result ≡ payload_of self }
    {
        match self {
            Small::Fill(byte) => Payload::Fill(byte),
            Small::Stamp(number) => Payload::Stamp(number),
        }
    }
}
