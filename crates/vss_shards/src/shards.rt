ghost use Rattle.std.specs.Prelude.{◌≡◌, ◌<◌, ◌≤◌, ◌⊎◌, length, vec_len, IfErr, IfOk};
ghost use Rattle.std.specs.List.{All};
ghost use Rattle.std.specs.List.Sorted.{IsNonDecreasingBy};
ghost use Rattle.std.specs.Sync.Mutex.{mutex_guard_value};
ghost use Rattle.write_history.specs.History.{fresh};
ghost use Rattle.cow_volume.specs.OneVolume.{StandsForOne};
ghost use Rattle.vss_shards.specs.Journals.{most_entries, most_volumes, IsEnteredUnderLock};
ghost use Rattle.vss_shards.specs.Calls.{IsPlaceRefused, IsWriteSaid, IsWriteUnderLock};
ghost use Rattle.vss_shards.specs.Shards.{IsShard, ShardValue, shards_from};

use crate::entry::Entry;
use crate::journal::Journal;
use crate::shard::Shard;
use crate::shard_fault::ShardFault;
use crate::small::Small;
use crate::writing::{may_write, put, reserve};
use cow_volume::CowVolume;
use std::alloc::Global;
use std::marker::Model;
use std::sync::{Mutex, MutexGuard, Wait};
use volume_device::Device;
use vss_names::OutOfMemory;

/// The shards of several volumes and their journal, each behind a lock of its own. Callers take a shard's lock before the journal's.
/// Contracts see how many shards there are.
#[derive(Drop)]
pub struct Shards<D: Device> {
    shards: Vec<Mutex<Shard<D>>>,
    journal: Mutex<Journal>,
    /// Where the shards go once no lock is needed any more: nothing yet.
    states: Vec<Shard<D>>,
}

impl<D: Device> Model for Shards<D> {
    ghost use Rattle.std.specs.Prelude.{◌≡◌, ◌≤◌, ℕ, vec_len, vec_capacity, []};

    ghost Value = { ℕ };

    ghost view = { λ s. vec_len s.shards };

    ghost invariant = { λ s. (vec_len s.shards ≤ vec_capacity s.states) × (s.states.items ≡ []) × (vec_len s.shards ≤ 128) };
}

impl<D: Device> Shards<D> {
    /// A shard for each volume, numbered from 0 in their order, and a journal of no entries. The volumes are of zeros and have no images.
    pub fn new(alloc: Global, volumes: Vec<CowVolume<D>>) -> Result<Shards<D>, OutOfMemory>
        requires some { 0 < length volumes.items }
        requires few { length volumes.items ≤ most_volumes }
        requires fresh { All (λ volume. StandsForOne D.told volume fresh) volumes.items }
        ensures { IfOk result (λ shards. shards ≡ length volumes.items) }
    {
        let count = volumes.len();
        let states = Vec::with_capacity(alloc, count)?;
        let journal = Journal::new(alloc)?;
        let shards = locked(alloc, numbered(alloc, volumes)?)?;
        Ok(Shards {
            shards,
            journal: Mutex::new(journal),
            states,
        })
    }

    /// How many shards there are.
    pub fn volumes(&self) -> u32
        ensures { result ≡ self.now }
    {
        self.shards.len() as u32
    }

    /// Lends the shard of a number under its lock. Where callers exchanged what locks keep, it waits until that shard is back.
    pub fn lock<R: Wait>(&self, rt: &R, v: u32) -> MutexGuard<'_, Shard<D>>
        requires { v < self.now }
        ensures { (mutex_guard_value result).number ≡ v }
    {
        for _ in rt.forever() {
            let shard = self.shard(v).lock(rt);
            if shard.number() == v {
                return shard;
            }
        }
        unreachable!()
    }

    /// The lock of a shard.
    pub fn shard(&self, v: u32) -> &Mutex<Shard<D>>
        requires { v < self.now }
    {
        &self.shards[v as usize]
    }

    /// The journal's lock.
    pub fn journal(&self) -> &Mutex<Journal> {
        &self.journal
    }

    /// Writes a block of a shard under its lock, and answers how many entries the journal then has. The journal's lock is taken once,
    /// for the entry and for a place that is kept for the shard's next write. Answers are those of `write_on`; the journal is full
    /// where it has 1,048,576 entries with those that are being written, and with the place of a shard that somebody else has locked.
    pub fn write<R: Wait>(
        &self,
        rt: &R,
        v: u32,
        block: u32,
        payload: Small,
    ) -> Result<u32, ShardFault>
        requires { v < self.now }
        ensures { IsWriteUnderLock D.Device v block payload result }
    {
        let mut shard = self.lock(rt, v);
        self.write_locked(rt, &mut shard, block, payload)
    }

    /// The write of a shard whose lock is taken.
    fn write_locked<R: Wait>(
        &self,
        rt: &R,
        shard: &mut Shard<D>,
        block: u32,
        payload: Small,
    ) -> Result<u32, ShardFault>
        ensures said { IsWriteSaid D.Device shard.old shard.new block payload result }
        ensures found { IsShard D.told shard.old }
    {
        may_write(shard, block)?;
        if !shard.has_place {
            self.take_place(rt)?;
            shard.has_place = true;
        }
        let entry = put(shard, block, payload)?;
        let (count, keeps) = self.append(rt, entry);
        shard.has_place = keeps;
        Ok(count)
    }

    /// Takes a place in the journal: a new one, or where it is full one that is kept for the next write of a shard that nobody has.
    fn take_place<R: Wait>(&self, rt: &R) -> Result<(), ShardFault>
        ensures { IfErr result IsPlaceRefused }
    {
        let mut journal = self.journal.lock(rt);
        if !journal.is_full() {
            return reserve(&mut journal);
        }
        for other in &self.shards {
            if let Some(mut shard) = other.try_lock()
                && shard.give_up_place()
            {
                return Ok(());
            }
        }
        Err(ShardFault::Full)
    }

    /// Puts an entry into the place that is taken for it. Answers how many entries there are then, and whether there is a place for the
    /// next write of its shard. There is a place as long as no one exchanges what the locks keep; else it takes one, or waits for one.
    fn append<R: Wait>(&self, rt: &R, entry: Entry) -> (u32, bool)
        requires { entry.volume < most_volumes }
        ensures { IsEnteredUnderLock entry result.0 }
    {
        for _ in rt.forever() {
            let mut journal = self.journal.lock(rt);
            if let Some(count) = journal.enter(entry) {
                return (count, journal.try_reserve());
            }
        }
        unreachable!()
    }

    /// What the locks keep, the shards in order of their numbers, whatever was exchanged among them, without taking memory.
    pub fn into_states(self) -> (Vec<Shard<D>>, Journal)
        ensures count { vec_len result.0 ≡ self }
        ensures ordered { IsNonDecreasingBy (λ (s : ShardValue D). s.number) result.0.items }
        ensures places { result.1.places ≡ 0 }
    {
        let Shards {
            shards,
            journal,
            mut states,
        } = self;
        for shard in shards {
            states.push_reserved(shard.into_inner());
        }
        states.sort_unstable_by_key(|shard| shard.number());
        let mut journal = journal.into_inner();
        journal.release_all();
        (states, journal)
    }
}

/// A shard for each volume, numbered from 0 in their order.
fn numbered<D: Device>(
    alloc: Global,
    volumes: Vec<CowVolume<D>>,
) -> Result<Vec<Shard<D>>, OutOfMemory>
    requires few { length volumes.items ≤ most_volumes }
    requires fresh { All (λ volume. StandsForOne D.told volume fresh) volumes.items }
    ensures { IfOk result (λ shards. shards.items ≡ shards_from 0 volumes.items) }
{
    let mut shards = Vec::with_capacity(alloc, volumes.len())?;
    let mut number = 0;
    for volume in volumes {
        let shard = Shard::new(alloc, number, volume)?;
        shards.push(shard)?;
        number += 1;
    }
    Ok(shards)
}

/// Puts each of these shards behind a lock.
fn locked<D: Device>(
    alloc: Global,
    numbered: Vec<Shard<D>>,
) -> Result<Vec<Mutex<Shard<D>>>, OutOfMemory>
    ensures { IfOk result (λ shards. vec_len shards ≡ length numbered.items) }
{
    let mut shards = Vec::with_capacity(alloc, numbered.len())?;
    for shard in numbered {
        shards.push(Mutex::new(shard))?;
    }
    Ok(shards)
}
