ghost use Rattle.std.specs.Prelude.{◌≡◌, ◌<◌, false, true, length, replicate, slice_set, if◌then◌else◌, IfOk, IfSome, IsNone, ◌↔◌};
ghost use Rattle.mirror_volume.specs.Stale.{IsLowestStale, HoldsStale, stale_count};

use slot_pool::SlotPool;
use std::alloc::Global;
use std::marker::Model;
use vss_names::OutOfMemory;

/// Which blocks of a mirror are stale. Contracts see one truth value for each block.
///
/// The lowest one is found in a queue, which may hold blocks that are stale no longer: such a block is taken out when it is the
/// lowest. So each block that is marked costs as many steps as the queue has levels, 16 at 65,536 blocks, and no call looks at
/// all blocks.
#[derive(Drop)]
pub(crate) struct StaleBlocks {
    stale: Vec<bool>,
    queue: SlotPool,
    count: u32,
}

impl Model for StaleBlocks {
    ghost use Rattle.std.specs.Prelude.{List, Bool};
    ghost use Rattle.mirror_volume.specs.Stale.{KeepsStale};

    ghost Value = { List Bool };

    ghost view = { λ s. s.stale.items };

    ghost invariant = { λ s. KeepsStale s.stale.items s.queue s.count };
}

impl StaleBlocks {
    /// So many blocks, all of them stale, or none. It takes all memory that is ever needed.
    pub(crate) fn new(alloc: Global, blocks: u32, stale: bool) -> Result<StaleBlocks, OutOfMemory>
        ensures { IfOk result (λ blocks_are. blocks_are ≡ replicate blocks stale) }
    {
        let marks = vec![in alloc; stale; blocks as usize]?;
        let queue = SlotPool::new(alloc, blocks)?;
        let count = count_at_first(blocks, stale);
        Ok(StaleBlocks {
            stale: marks,
            queue,
            count,
        })
    }

    /// How many blocks are stale.
    pub(crate) fn count(&self) -> u32
        ensures { result ≡ stale_count self.now }
    {
        self.count
    }

    /// A block is stale from now on.
    pub(crate) fn mark(&mut self, block: u32)
        requires { block < length self.old }
        ensures { self.new ≡ slice_set self.old block true }
    {
        if self.stale[block as usize] {
            return;
        }
        self.stale[block as usize] = true;
        self.count += 1;
        if self.queue.is_taken(block) {
            self.queue.give(block);
        }
    }

    /// A block is stale no longer.
    pub(crate) fn unmark(&mut self, block: u32)
        requires { block < length self.old }
        ensures { self.new ≡ slice_set self.old block false }
    {
        if !self.stale[block as usize] {
            return;
        }
        self.stale[block as usize] = false;
        self.count -= 1;
    }

    /// The lowest stale block.
    pub(crate) fn lowest(&mut self) -> Option<u32>
        ensures lowest { IfSome result (IsLowestStale self.old) }
        ensures none { IsNone result ↔ (stale_count self.old ≡ 0) }
        ensures same { self.new ≡ self.old }
    {
        if self.count == 0 {
            return None;
        }
        lowest_in(&self.stale, &mut self.queue)
    }
}

/// How many of so many blocks are stale, where all are, or none.
fn count_at_first(blocks: u32, stale: bool) -> u32
    ensures { result ≡ (if stale then blocks else 0) }
{
    if stale { blocks } else { 0 }
}

/// The lowest stale block of a queue that holds them all. What is stale no longer is taken out on the way.
fn lowest_in(stale: &[bool], queue: &mut SlotPool) -> Option<u32>
    requires { HoldsStale stale.now queue.old }
    ensures lowest { IfSome result (IsLowestStale stale.now) }
    ensures none { IsNone result → stale_count stale.now ≡ 0 }
    ensures holds { HoldsStale stale.now queue.new }
{
    while let Some(block) = queue.lowest() {
        if stale[block as usize] {
            return Some(block);
        }
        let _ = queue.take();
    }
    None
}
