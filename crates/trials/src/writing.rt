//! Writers and one who makes cuts, in threads.

use crate::stopped::Stopped;
use std::alloc::Global;
use std::sync::{Mutex, Wait};
use std::thread;
use std::thread::Threads;
use volume_device::MemDevice;
use vss_shards::{Draft, Shards, Small, collect, give_back};

/// How often a writer tries at most.
const MOST_TRIES: u32 = 1_000_000;

/// How many blocks of a volume a writer writes, in turn.
const BLOCKS: u64 = 4;

/// Tries to put n into block n modulo 4 of a shard; how many entries the journal then has, or none where the write was refused.
fn write_next<R: Wait>(rt: &R, shards: &Shards<MemDevice>, v: u32, n: u64) -> Option<u32> {
    if v >= shards.volumes() {
        return None;
    }
    let block = (n % BLOCKS) as u32;
    shards.write(rt, v, block, Small::Stamp(n)).ok()
}

/// Makes all writes of a shard: the nth puts n into block n modulo 4, and is tried again where the shard is held. Notes how many entries the
/// journal had after each.
fn write_all<R: Wait>(
    rt: &R,
    shards: &Shards<MemDevice>,
    v: u32,
    writes: u32,
    numbers: &Mutex<Vec<u32>>,
) {
    let mut own = numbers.lock(rt);
    for _ in 0..MOST_TRIES {
        let made = own.len();
        if made >= writes as usize {
            return;
        }
        match write_next(rt, shards, v, made as u64 + 1) {
            Some(number) => {
                let _ = own.push(number);
            }
            None => thread::yield_now(),
        }
    }
}

/// Holds each shard for a cut.
fn hold_all<R: Wait>(rt: &R, shards: &Shards<MemDevice>, draft: &mut Draft) {
    for v in 0..shards.volumes() {
        let mut shard = shards.lock(rt, v);
        if draft.recorded().is_none() {
            let _ = collect(&mut shard, draft);
        }
    }
}

/// Lets each shard go.
fn let_all_go<R: Wait>(rt: &R, shards: &Shards<MemDevice>, draft: &mut Draft) {
    for v in 0..shards.volumes() {
        let mut shard = shards.lock(rt, v);
        if draft.has(&shard) {
            give_back(&mut shard, draft);
        }
    }
}

/// Makes so many cuts of all shards.
fn make_cuts<R: Wait>(rt: &R, alloc: Global, shards: &Shards<MemDevice>, cuts: u32) {
    for _ in 0..cuts {
        let mut draft = Draft::new(alloc);
        hold_all(rt, shards, &mut draft);
        if draft.recorded().is_none() {
            let _ = shards.journal().lock(rt).record_cut(&mut draft);
        }
        let_all_go(rt, shards, &mut draft);
        thread::yield_now();
    }
}

/// A writer of each shard in a thread, and the cuts beside them; where there is no thread for a writer, it writes here.
fn run_all<R: Threads + Wait + Sync>(
    rt: &R,
    alloc: Global,
    shards: &Shards<MemDevice>,
    writes: u32,
    cuts: u32,
    numbers: &[Mutex<Vec<u32>>],
) {
    thread::scope(thread::scope_env(), rt, |scope| {
        let mut v = 0u32;
        for own in numbers {
            if scope
                .spawn(move || write_all(rt, shards, v, writes, own))
                .is_err()
            {
                write_all(rt, shards, v, writes, own);
            }
            v = v.saturating_add(1);
        }
        make_cuts(rt, alloc, shards, cuts);
    });
}

/// A writer of each shard, and one who makes cuts of all, in threads. Tells the numbers of each writer's entries in the journal.
pub fn write_in_threads<R: Threads + Wait + Sync>(
    rt: &R,
    alloc: Global,
    shards: &Shards<MemDevice>,
    writes: u32,
    cuts: u32,
) -> Result<Vec<Vec<u32>>, Stopped> {
    let mut logs = Vec::new(alloc);
    for _ in 0..shards.volumes() {
        let own: Vec<u32> = Vec::new(alloc);
        logs.push(Mutex::new(own))?;
    }
    run_all(rt, alloc, shards, writes, cuts, logs.as_slice());
    let mut numbers = Vec::new(alloc);
    for log in logs {
        numbers.push(log.into_inner())?;
    }
    Ok(numbers)
}
