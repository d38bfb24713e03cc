ghost use Rattle.std.specs.Prelude.{◌≡◌, ◌<◌, ◌+◌, length, vec_capacity, IfErr, IfOk, OnOk, All};
ghost use Rattle.write_history.specs.History.{Image, after_set};
ghost use Rattle.vss_shards.specs.Journals.{most_entries, most_volumes, with_places};
ghost use Rattle.vss_shards.specs.Calls.{IsAllowed, IsPut, IsWriteOn, MayBeWritten, fault_from};
ghost use Rattle.vss_shards.specs.Shards.{IsShard, GoesOn};
ghost use Rattle.vss_shards.specs.declared.shard_fault.ShardFault.TheVariants.{OutOfMemory};

use crate::entry::Entry;
use crate::image_point::ImagePoint;
use crate::journal::Journal;
use crate::shard::{MOST_ENTRIES, Shard};
use crate::shard_fault::ShardFault;
use crate::small::Small;
use cow_volume::Cause;
use volume_device::Device;

/// Writes a block of a shard, and answers how many entries the journal then has. The entry goes to the end of the shard's list and to
/// the end of the journal. Where the block's old bytes need a slot and none is free, the oldest images go first, until one is.
pub fn write_on<D: Device>(
    shard: &mut Shard<D>,
    journal: &mut Journal,
    block: u32,
    payload: Small,
) -> Result<u32, ShardFault>
    ensures write { IsWriteOn D.Device shard.old shard.new journal.old journal.new block payload result }
    ensures goes_on { GoesOn shard.old shard.new }
{
    may_write(shard, block)?;
    if journal.is_full() {
        return Err(ShardFault::Full);
    }
    reserve(journal)?;
    match put(shard, block, payload) {
        Ok(entry) => Ok(journal.append(entry)),
        Err(fault) => {
            journal.release();
            Err(fault)
        }
    }
}

/// Takes a place in the journal, if there is memory for it.
pub(crate) fn reserve(journal: &mut Journal) -> Result<(), ShardFault>
    requires { length journal.old.entries + journal.old.places < most_entries }
    ensures taken { OnOk result (journal.new ≡ with_places (journal.old.places + 1) journal.old) }
    ensures refused { IfErr result (λ fault. (fault ≡ OutOfMemory) × (journal.new ≡ journal.old)) }
{
    if journal.reserve().is_err() {
        return Err(ShardFault::OutOfMemory);
    }
    Ok(())
}

/// Writes a block of a shard, for which the journal has a place, and answers the entry, the last of the shard's list.
pub(crate) fn put<D: Device>(
    shard: &mut Shard<D>,
    block: u32,
    payload: Small,
) -> Result<Entry, ShardFault>
    requires may { MayBeWritten shard.old block }
    requires room { length shard.old.entries < most_entries }
    ensures put { IsPut D.Device shard.old shard.new block payload result }
    ensures volume { IfOk result (λ entry. entry.volume < most_volumes) }
    ensures goes_on { GoesOn shard.old shard.new }
{
    if shard.entries.reserve(1).is_err() {
        return Err(ShardFault::OutOfMemory);
    }
    match shard.volume.write(block, &payload.payload()) {
        Ok(done) => forget_up_to(&mut shard.images, done.evicted_up_to),
        Err(fault) => {
            forget_up_to(&mut shard.images, fault.evicted_up_to);
            return Err(fault_of(fault.cause));
        }
    }
    let entry = Entry {
        volume: shard.number,
        block,
        payload,
    };
    shard.entries.push_reserved(entry);
    Ok(entry)
}

/// Looks whether a shard may be written at a block, and its list takes one more entry.
pub(crate) fn may_write<D: Device>(shard: &Shard<D>, block: u32) -> Result<(), ShardFault>
    ensures allowed { IsAllowed shard.now block result }
    ensures kept { IsShard D.told shard.now }
{
    if shard.held.is_some() {
        return Err(ShardFault::Held);
    }
    if block >= shard.volume.blocks() {
        return Err(ShardFault::NoSuchBlock);
    }
    if shard.entries.len() >= MOST_ENTRIES {
        return Err(ShardFault::Full);
    }
    Ok(())
}

/// The images up to a number are gone.
fn forget_up_to(images: &mut Vec<ImagePoint>, up_to: u32)
    requires { All (λ (i : Image). 0 < i.set) images.old.items }
    ensures images { images.new.items ≡ after_set up_to images.old.items }
    ensures capacity { vec_capacity images.new ≡ vec_capacity images.old }
{
    if up_to == 0 {
        return;
    }
    images.retain(|point| point.image > up_to);
}

/// Why a shard was not written, where its block is one of the volume's.
fn fault_of(cause: Cause) -> ShardFault
    ensures { result ≡ fault_from cause }
{
    match cause {
        Cause::NoSuchBlock => ShardFault::NoSuchBlock,
        Cause::Volume => ShardFault::Volume,
        Cause::Area => ShardFault::Area,
    }
}
