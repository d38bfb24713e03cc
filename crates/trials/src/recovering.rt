ghost use Rattle.std.specs.Prelude.{◌≡◌, ◌≤◌, IfOk, length};
ghost use Rattle.cow_volume.specs.OneVolume.{blocks_of};

use crate::call::Call;
use crate::content::{Content, buffer};
use crate::making::{area, may_cut, volume};
use crate::page::Page;
use crate::plan::Plan;
use crate::stopped::{Done, Stopped};
use block_data::Payload;
use cow_volume::CowVolume;
use std::alloc::Global;
use volume_device::MemDevice;
use vss_names::{MOST_IMAGES, Numbers};
use vss_recover::{Claim, MOST_CLAIMS, RecoverVolume};

type Volume = RecoverVolume<MemDevice>;

/// A volume of so many blocks over so many slots, whose overlay has so many.
fn volume_of(alloc: Global, plan: &mut Plan, call: Call<'_>) -> Result<Volume, Stopped> {
    let blocks = call.number(0);
    let overlay = area(alloc, plan, "overlay", call.number(2), &[blocks])?;
    let volume = volume(alloc, plan, blocks, call.number(1))?;
    Ok(RecoverVolume::new(alloc, volume, overlay)?)
}

/// A volume is taken apart, by way of a group, and taken up again with its images.
fn taken_up(alloc: Global, volume: CowVolume<MemDevice>) -> Result<CowVolume<MemDevice>, Stopped>
    ensures { IfOk result (λ taken. blocks_of taken ≡ blocks_of volume) }
{
    let images = Numbers::copy(alloc, volume.images())?;
    let (device, area) = CowVolume::of(volume.into_group()).into_parts();
    match CowVolume::resume(alloc, device, area, images) {
        Ok(volume) => Ok(volume),
        Err(_) => Err(Stopped),
    }
}

/// The volume is taken apart, and taken up again with these final sets; the volume beneath it too.
fn again(alloc: Global, volume: Volume, finals: &[u32]) -> Result<Volume, Stopped>
    requires { length finals.now ≤ 512 }
{
    let (volume, overlay) = volume.into_parts();
    let volume = taken_up(alloc, volume)?;
    match RecoverVolume::resume(alloc, volume, overlay, finals) {
        Ok(volume) => Ok(volume),
        Err(_) => Err(Stopped),
    }
}

/// Reads a block.
fn read(page: &mut Page, volume: &mut Volume, block: u32) -> Done {
    let mut out = buffer(page.alloc())?;
    let read = volume.read_into(block, out.bytes_mut());
    page.tell(&read.map(|()| Content::of(out.bytes())));
    Ok(())
}

/// Reads a block of an image.
fn image(page: &mut Page, volume: &mut Volume, set: u32, block: u32) -> Done {
    let mut out = buffer(page.alloc())?;
    let read = volume.read_image_into(set, block, out.bytes_mut());
    page.tell(&read.map(|()| Content::of(out.bytes())));
    Ok(())
}

/// Cuts an image, if it may be cut.
fn cut(page: &mut Page, volume: &mut Volume, set: u32) {
    if volume.window().is_some() || !may_cut(volume.images(), set) {
        return page.say(b"unmet");
    }
    page.tell(&volume.cut(set));
}

/// A claim for each three numbers.
fn claims_of(alloc: Global, numbers: &[u32]) -> Result<Vec<Claim>, Stopped> {
    let mut claims = Vec::new(alloc);
    for triple in numbers.chunks_exact(3) {
        claims.push(Claim {
            writer: triple[0],
            first: triple[1],
            count: triple[2],
        })?;
    }
    Ok(claims)
}

/// Opens the window of the set whose number comes first, with a claim for each three numbers behind it.
fn open(page: &mut Page, volume: &mut Volume, numbers: &[u32]) -> Done {
    let [set, triples @ ..] = numbers else {
        return Err(Stopped);
    };
    let claims = claims_of(page.alloc(), triples)?;
    if claims.len() > MOST_CLAIMS {
        page.say(b"unmet");
        return Ok(());
    }
    page.tell(&volume.pre_final(*set, &claims));
    Ok(())
}

/// Makes a call of the window, or one that looks at the volume.
fn make_in_window(page: &mut Page, volume: &mut Volume, call: Call<'_>) -> Done {
    match call.word {
        "post_final" => page.tell(&volume.post_final()),
        "window" => page.tell(&volume.window()),
        "images" => page.tell(&volume.images()),
        "used" => page.tell(&volume.used()),
        "overlay_used" => page.tell(&volume.overlay_used()),
        "flush" => page.tell(&volume.flush()),
        "sync" => page.tell(&volume.sync()),
        "pre_final" => return open(page, volume, call.numbers),
        _ => return Err(Stopped),
    }
    Ok(())
}

/// What a call writes, whose number is at a place: `fill 7` or `stamp 7`.
fn payload_of(call: Call<'_>, place: usize) -> Payload {
    if call.rest.contains("stamp") {
        return Payload::Stamp(u64::from(call.number(place)));
    }
    Payload::Fill(call.byte(place))
}

/// A writer mends a block.
fn recover(page: &mut Page, volume: &mut Volume, call: Call<'_>) {
    let (set, writer, block) = (call.number(0), call.number(1), call.number(2));
    let payload = payload_of(call, 3);
    page.tell(&volume.recover_write(set, writer, block, &payload));
}

/// Makes a call of a volume whose newest image writers mend.
fn make(page: &mut Page, volume: &mut Volume, call: Call<'_>) -> Done {
    let (first, second) = (call.number(0), call.number(1));
    match call.word {
        "read" => return read(page, volume, first),
        "image" => return image(page, volume, first, second),
        "write" => page.tell(&volume.write(first, &payload_of(call, 1))),
        "recover" => recover(page, volume, call),
        "cut" => cut(page, volume, first),
        "drop" => page.tell(&volume.drop_image(first)),
        "revert" => page.tell(&volume.revert(first)),
        _ => return make_in_window(page, volume, call),
    }
    Ok(())
}

/// The subject `recover`: the volume that the lines are about.
#[derive(Drop)]
pub struct Recovering {
    pub volume: Option<Volume>,
}

impl Recovering {
    /// Makes the volume that a line asks for.
    fn begin(&mut self, alloc: Global, plan: &mut Plan, call: Call<'_>) -> Done {
        let volume = volume_of(alloc, plan, call)?;
        let _ = self.volume.insert(volume);
        plan.clear();
        Ok(())
    }

    /// Takes the volume apart, and up again with the final sets of a line.
    fn begin_again(&mut self, alloc: Global, finals: &[u32]) -> Done {
        if finals.len() > MOST_IMAGES {
            return Err(Stopped);
        }
        let volume = self.volume.take().ok_or(Stopped)?;
        let _ = self.volume.insert(again(alloc, volume, finals)?);
        Ok(())
    }

    /// Takes a line.
    pub fn take(&mut self, page: &mut Page, plan: &mut Plan, call: Call<'_>) -> Done {
        match call.word {
            "volume" => self.begin(page.alloc(), plan, call),
            "again" => self.begin_again(page.alloc(), call.numbers),
            _ => match &mut self.volume {
                Some(volume) => make(page, volume, call),
                None => Err(Stopped),
            },
        }
    }
}
