//! The SHA-256 of volumes and of images, made side by side by several threads, of blocks that are lent or read by them all.

ghost use Rattle.std.specs.Prelude.{◌<◌, length, IfOk, IfSome, All};
ghost use Rattle.provider.specs.Groups.{HasGroups};
ghost use Rattle.provider.specs.Calls.{IsDigestTold, IsDigestedAt, IsRowOf};

use crate::digested::Digested;
use crate::digests_of::DigestsOf;
use crate::hashing::digest_of;
use block_data::BlockBuf;
use cow_volume::CowGroup;
use scenario::Scenario;
use std::alloc::Global;
use std::thread;
use std::thread::Threads;
use volume_device::Device;
use vss_names::OutOfMemory;

/// The SHA-256 of a volume, or of the image of a set on it. None if a block could not be read so, or out of memory.
fn digest_beside<D: Device>(
    alloc: Global,
    groups: &Vec<CowGroup<D>>,
    scenario: &Scenario,
    volume: u32,
    set: Option<u32>,
) -> Option<[u8; 32]>
    requires volume { volume < length scenario.now.volumes }
    requires has { HasGroups scenario.now groups.now.items }
    ensures { IfSome result (IsDigestTold D.told scenario.now groups.now.items volume set) }
{
    let Ok(mut buffer) = BlockBuf::zeroed(alloc) else {
        return None;
    };
    let place = scenario.place(volume);
    let mut group = &groups[place.group as usize];
    digest_of(&mut group, &mut buffer, place.volume, set).ok()
}

/// A row without a digest for each volume, in order, each followed by those of its images if they are wanted, the oldest
/// first.
fn rows_of<D: Device>(
    alloc: Global,
    groups: &Vec<CowGroup<D>>,
    scenario: &Scenario,
    wanted: DigestsOf,
) -> Result<Vec<Digested>, OutOfMemory>
    requires { HasGroups scenario.now groups.now.items }
    ensures { IfOk result (λ rows. All (IsRowOf scenario.now) rows.items) }
{
    let mut rows = Vec::new(alloc);
    for volume in 0..scenario.volumes() {
        rows.push(Digested {
            volume,
            set: None,
            digest: None,
        })?;
        if let DigestsOf::Volumes = wanted {
            continue;
        }
        let place = scenario.place(volume);
        for set in groups[place.group as usize].images(place.volume) {
            rows.push(Digested {
                volume,
                set: Some(*set),
                digest: None,
            })?;
        }
    }
    Ok(rows)
}

/// How many threads run at one time: as many as there are processors.
fn processors<R: Threads>(rt: &R) -> usize
    ensures { 0 < result }
{
    match thread::available_parallelism(rt) {
        Ok(count) => count.get(),
        Err(_) => 1,
    }
}

/// Puts the digest of each row into it, by as many threads as there are processors.
fn digest_rows<R: Threads + Sync, D: Device + Sync>(
    rt: &R,
    alloc: Global,
    groups: &Vec<CowGroup<D>>,
    scenario: &Scenario,
    rows: &mut [Digested],
)
    requires has { HasGroups scenario.now groups.now.items }
    requires rows { All (IsRowOf scenario.now) rows.old }
    ensures { All (IsDigestedAt D.told scenario.now groups.now.items) rows.new }
{
    thread::for_each_mut(
        rt,
        rows,
        processors(rt),
        &|_i, row: &mut Digested|
            requires { IsRowOf scenario.now row.old × HasGroups scenario.now groups.now.items }
            ensures { IsDigestedAt D.told scenario.entry.now groups.entry.now.items row.new }
        { row.digest = digest_beside(alloc, groups, scenario, row.volume, row.set) },
    );
}

/// The digests of all volumes, in order, each followed by those of its images if they are wanted, the oldest first. A row
/// has none if it could not be made beside the others.
pub(crate) fn digests_in<R: Threads + Sync, D: Device + Sync>(
    rt: &R,
    alloc: Global,
    groups: &Vec<CowGroup<D>>,
    scenario: &Scenario,
    wanted: DigestsOf,
) -> Result<Vec<Digested>, OutOfMemory>
    requires { HasGroups scenario.now groups.now.items }
    ensures { IfOk result (λ digests. All (IsDigestedAt D.told scenario.now groups.now.items) digests.items) }
{
    let mut rows = rows_of(alloc, groups, scenario, wanted)?;
    digest_rows(rt, alloc, groups, scenario, rows.as_mut_slice());
    Ok(rows)
}
