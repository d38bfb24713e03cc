ghost use Rattle.std.specs.Prelude.{◌≡◌, nat_lt};

/// A noted slot, with the block and the set of its copy.
#[derive(Clone, Copy, Debug, PartialEq, Eq)]
pub struct Entry {
    pub block: u32,
    pub set: u32,
    pub slot: u32,
}

impl Entry {
    ghost use Rattle.diff_map.specs.Links.{place, place_of};

    /// Whether this entry stands before those of this block from this set on, in order of block and then of set.
    pub fn is_before(self, block: u32, set: u32) -> bool
        ensures { result ≡ nat_lt (place self) (place_of block set) }
    {
        self.block < block || (self.block == block && self.set < set)
    }
}
