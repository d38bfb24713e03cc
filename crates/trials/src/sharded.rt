//! The subject `shards`: volumes behind locks of their own. A call of a shard is made under its lock, one of the journal under the journal's.

ghost use Rattle.std.specs.Prelude.{◌≡◌, All, IfOk, length};
ghost use Rattle.trials.specs.Devices.{IsFresh};

use crate::call::Call;
use crate::content::{Content, buffer};
use crate::making::volume;
use crate::page::Page;
use crate::plan::Plan;
use crate::stopped::{Done, Stopped};
use crate::writing::write_in_threads;
use cow_volume::CowVolume;
use std::alloc::Global;
use std::sync::Wait;
use std::thread::Threads;
use volume_device::MemDevice;
use vss_names::MOST_VOLUMES;
use vss_shards::{
    Draft, Journal, Shard, Shards, Small, collect, gather, give_back, read_image_on, read_on,
};

/// Volumes of zeros of so many blocks over so many slots each.
fn volumes(
    alloc: Global,
    plan: &mut Plan,
    count: u32,
    blocks: u32,
    slots: u32,
) -> Result<Vec<CowVolume<MemDevice>>, Stopped>
    ensures fresh { IfOk result (λ volumes. All IsFresh volumes.items) }
{
    let mut volumes = Vec::new(alloc);
    for _ in 0..count {
        let made = volume(alloc, plan, blocks, slots)?;
        volumes.push(made)?;
    }
    Ok(volumes)
}

/// Shards of so many volumes.
fn shards_of(
    alloc: Global,
    plan: &mut Plan,
    count: u32,
    size: (u32, u32),
) -> Result<Shards<MemDevice>, Stopped> {
    let volumes = volumes(alloc, plan, count, size.0, size.1)?;
    if volumes.is_empty() || volumes.len() > MOST_VOLUMES as usize {
        return Err(Stopped);
    }
    Ok(Shards::new(alloc, volumes)?)
}

/// Makes a call of a shard.
fn make_on(
    page: &mut Page,
    shard: &mut Shard<MemDevice>,
    draft: &mut Draft,
    call: Call<'_>,
) -> Done {
    let (first, second) = (call.number(1), call.number(2));
    let mut out = buffer(page.alloc())?;
    match call.word {
        "read" => {
            let read = read_on(shard, first, out.bytes_mut());
            page.tell_of("Read", &read.map(|()| Content::of(out.bytes())));
        }
        "image" => {
            let read = read_image_on(shard, first, second, out.bytes_mut());
            page.tell_of("Image", &read.map(|()| Content::of(out.bytes())));
        }
        "is_held" => page.tell_of("IsHeld", &shard.is_held()),
        "number" => page.tell_of("Number", &shard.number()),
        "has" => page.tell_of("Has", &draft.has(shard)),
        "collect" if draft.recorded().is_none() => page.tell_of("Collect", &collect(shard, draft)),
        "give_back" if draft.has(shard) => {
            give_back(shard, draft);
            page.say(b"GaveBack");
        }
        _ => page.say(b"NotAllowed"),
    }
    Ok(())
}

/// Makes a call of the journal, or for the draft.
fn make_on_journal(page: &mut Page, journal: &mut Journal, draft: &mut Draft, call: Call<'_>) {
    let number = call.number(0);
    match call.word {
        "cuts" => page.tell_of("Cuts", &journal.cuts()),
        "cut" if 0 < number && number <= journal.cuts() => {
            page.tell_of("Cut", &journal.cut(number))
        }
        "recorded" => page.tell_of("Recorded", &draft.recorded()),
        "record" if draft.recorded().is_none() => {
            page.tell_of("Record", &journal.record_cut(draft))
        }
        _ => page.say(b"NotAllowed"),
    }
}

/// Writes a block as often as the fourth number says, or once, and shows the last answer.
fn write<R: Wait>(handle: &R, page: &mut Page, shards: &Shards<MemDevice>, call: Call<'_>) -> Done {
    let (v, block) = (call.number(0), call.number(1));
    let payload = match call.word {
        "fill" => Small::Fill(call.byte(2)),
        _ => Small::Stamp(u64::from(call.number(2))),
    };
    if v >= shards.volumes() {
        return Err(Stopped);
    }
    for _ in 1..call.number(3) {
        let _ = shards.write(handle, v, block, payload);
    }
    page.tell_of("Write", &shards.write(handle, v, block, payload));
    Ok(())
}

/// Makes a call of the shard that the line names, under its lock.
fn make_on_shard<R: Wait>(
    handle: &R,
    page: &mut Page,
    shards: &Shards<MemDevice>,
    draft: &mut Draft,
    call: Call<'_>,
) -> Done {
    let v = call.number(0);
    if v >= shards.volumes() {
        return Err(Stopped);
    }
    let mut shard = shards.shard(v).lock(handle);
    make_on(page, &mut shard, draft, call)
}

/// Makes a call of shards, or of their journal.
fn make<R: Threads + Wait + Sync>(
    handle: &R,
    page: &mut Page,
    shards: &Shards<MemDevice>,
    draft: &mut Draft,
    call: Call<'_>,
) -> Done {
    match call.word {
        "fill" | "stamp" => write(handle, page, shards, call),
        "threads" => {
            let (writes, cuts) = (call.number(0), call.number(1));
            let entries = write_in_threads(handle, page.alloc(), shards, writes, cuts)?;
            page.tell_of("Entries", &entries);
            Ok(())
        }
        "cuts" | "cut" | "record" | "recorded" => {
            let mut journal = shards.journal().lock(handle);
            make_on_journal(page, &mut journal, draft, call);
            Ok(())
        }
        _ => make_on_shard(handle, page, shards, draft, call),
    }
}

/// The shards that the lines are about, and the draft of the next cut.
#[derive(Drop)]
pub struct Sharded {
    /// How many volumes the next shards have.
    count: u32,
    /// How many blocks and slots each of them has.
    size: (u32, u32),
    shards: Option<Shards<MemDevice>>,
    draft: Draft,
}

impl Sharded {
    /// Nothing is made yet.
    pub fn new(alloc: Global) -> Sharded {
        Sharded {
            count: 0,
            size: (0, 0),
            shards: None,
            draft: Draft::new(alloc),
        }
    }

    /// Makes the shards that the lines before ask for.
    fn begin(&mut self, alloc: Global, plan: &mut Plan) -> Done {
        let shards = shards_of(alloc, plan, self.count, self.size)?;
        let _ = self.shards.insert(shards);
        self.count = 0;
        plan.clear();
        Ok(())
    }

    /// Takes the shards out of their locks, and compares them with their journal.
    fn gather(&mut self, page: &mut Page) -> Done {
        let shards = self.shards.take().ok_or(Stopped)?;
        let (shards, journal) = shards.into_states();
        page.tell_of("Gather", &gather(&shards, &journal));
        Ok(())
    }

    /// Takes a line.
    pub fn take<R: Threads + Wait + Sync>(
        &mut self,
        handle: &R,
        page: &mut Page,
        plan: &mut Plan,
        call: Call<'_>,
    ) -> Done {
        match call.word {
            "volume" => {
                self.count = self.count.saturating_add(1);
                self.size = (call.number(0), call.number(1));
            }
            "shards" => self.begin(page.alloc(), plan)?,
            "gather" => return self.gather(page),
            "draft" => self.draft = Draft::new(page.alloc()),
            _ => {
                let shards = self.shards.as_ref().ok_or(Stopped)?;
                return make(handle, page, shards, &mut self.draft, call);
            }
        }
        page.say(b"Done");
        Ok(())
    }
}
