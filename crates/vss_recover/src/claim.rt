/// Blocks one after another of a new image that a writer alone may change in the window: `count` of them, from `first` on.
#[derive(Clone, Copy, Debug, PartialEq, Eq)]
pub struct Claim {
    pub writer: u32,
    pub first: u32,
    pub count: u32,
}

impl Claim {
    ghost use Rattle.std.specs.Prelude.{◌≡◌, ◌+◌};
    ghost use Rattle.vss_recover.specs.Steps.{has_block, is_within, meet};

    /// Whether the block is one of the claim's.
    pub fn has_block(self, block: u32) -> bool
        ensures { result ≡ has_block block self }
    {
        block >= self.first && u64::from(block) < self.end()
    }

    /// Whether the claim has a block, and all its blocks are those of a volume of so many.
    pub fn is_within(self, blocks: u32) -> bool
        ensures { result ≡ is_within blocks self }
    {
        self.count > 0 && self.end() <= u64::from(blocks)
    }

    /// Whether two claims that have blocks have one in common.
    pub fn meets(self, other: Claim) -> bool
        ensures { result ≡ meet self other }
    {
        u64::from(self.first) < other.end() && u64::from(other.first) < self.end()
    }

    /// The block after the last.
    fn end(self) -> u64
        ensures { result ≡ self.first + self.count }
    {
        u64::from(self.first) + u64::from(self.count)
    }
}
