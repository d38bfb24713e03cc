/// For what a slot is used: the copy of this block of this volume of the group, for the image of this set. A free
/// slot has a record of zeros, which no set has.
#[derive(Clone, Copy, Debug, PartialEq, Eq, PartialOrd, Ord)]
pub struct Record {
    pub set: u32,
    pub block: u32,
    pub volume: u32,
}

impl Record {
    ghost use Rattle.std.specs.Prelude.{◌≡◌, ◌==◌};
    ghost use Rattle.diff_area.specs.Format.{free, is_free};

    /// The record of a free slot.
    pub const FREE: Record = Record {
        set: 0,
        block: 0,
        volume: 0,
    };

    /// Whether the slot is free.
    pub fn is_free(self) -> bool
        ensures { result ≡ is_free self }
    {
        self == Record::FREE
    }
}
