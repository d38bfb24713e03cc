use crate::call::Call;
use crate::content::{buffer, filled_with};
use crate::making::{device, may_cut, mirrors};
use crate::page::Page;
use crate::plan::Plan;
use crate::stopped::{Done, Stopped};
use block_data::Payload;
use mirror_volume::{MirrorVolume, Synced};
use std::alloc::Global;
use volume_device::MemDevice;

type Volume = MirrorVolume<MemDevice>;

/// A volume of so many blocks with so many mirrors, over the devices `primary`, `mirror0` and so on.
fn volume(alloc: Global, plan: &mut Plan, blocks: u32, count: u32) -> Result<Volume, Stopped> {
    let primary = device(alloc, plan, "primary", blocks)?;
    let mirrors = mirrors(alloc, plan, &primary, count)?;
    Ok(MirrorVolume::new(alloc, primary, mirrors)?)
}

/// Takes a volume apart, and up again with as many new mirrors: without images, and with each block of each mirror stale.
fn again(alloc: Global, plan: &mut Plan, volume: Volume) -> Result<Volume, Stopped> {
    let count = volume.mirrors();
    let (primary, _) = volume.into_parts();
    let mirrors = mirrors(alloc, plan, &primary, count)?;
    Ok(MirrorVolume::resume(alloc, primary, mirrors)?)
}

/// Reads a block.
fn read(page: &mut Page, volume: &mut Volume, block: u32) -> Done {
    let mut out = buffer(page.alloc())?;
    let read = volume.read_into(block, out.bytes_mut());
    page.tell(&read.map(|()| filled_with(out.bytes())));
    Ok(())
}

/// Reads a block of an image.
fn image(page: &mut Page, volume: &mut Volume, set: u32, block: u32) -> Done {
    let mut out = buffer(page.alloc())?;
    let read = volume.read_image_into(set, block, out.bytes_mut());
    page.tell(&read.map(|()| filled_with(out.bytes())));
    Ok(())
}

/// Writes every block, and says how many writes were Ok.
fn fill(volume: &mut Volume, byte: u8) -> u64 {
    let mut written = 0u64;
    for block in 0..volume.blocks() {
        if volume.write(block, &Payload::Fill(byte)).is_ok() {
            written = written.saturating_add(1);
        }
    }
    written
}

/// Makes so many steps of a mirror, and says how many copied a block.
fn steps(volume: &mut Volume, mirror: u32, count: u32) -> u64 {
    let mut copied = 0u64;
    for _step in 0..count {
        if mirror >= volume.mirrors() {
            return copied;
        }
        if let Ok(Synced::Copied { .. }) = volume.resync_step(mirror) {
            copied = copied.saturating_add(1);
        }
    }
    copied
}

/// Makes a call of a mirror, or one that looks at the volume.
fn make_of_mirrors(page: &mut Page, volume: &mut Volume, call: Call<'_>) -> Done {
    let (first, second) = (call.number(0), call.number(1));
    match call.word {
        "ready" => page.tell(&volume.ready()),
        "blocks" => page.tell(&volume.blocks()),
        "mirrors" => page.tell(&volume.mirrors()),
        "images" => page.tell(&volume.images()),
        "sync" => page.tell(&volume.sync()),
        "fill" => page.tell(&fill(volume, call.byte(0))),
        "flush" if call.numbers.is_empty() => page.tell(&volume.flush()),
        _ if first >= volume.mirrors() => return Err(Stopped),
        "flush" => page.tell(&volume.flush_mirror(first)),
        "step" => page.tell(&volume.resync_step(first)),
        "steps" => page.tell(&steps(volume, first, second)),
        "stale" => page.tell(&volume.stale(first)),
        _ => return Err(Stopped),
    }
    Ok(())
}

/// Makes a call of a volume with mirrors.
fn make(page: &mut Page, volume: &mut Volume, call: Call<'_>) -> Done {
    let (first, second) = (call.number(0), call.number(1));
    match call.word {
        "read" => return read(page, volume, first),
        "image" => return image(page, volume, first, second),
        "write" => page.tell(&volume.write(first, &Payload::Fill(call.byte(1)))),
        "drop" => page.tell(&volume.drop_image(first)),
        "cut" if may_cut(volume.images(), first) => page.tell(&volume.cut(first)),
        _ => return make_of_mirrors(page, volume, call),
    }
    Ok(())
}

/// The subject `mirror`: the volume that the lines are about.
#[derive(Drop)]
pub struct Mirrored {
    pub volume: Option<Volume>,
}

impl Mirrored {
    /// Makes the volume that a line asks for.
    fn begin(&mut self, alloc: Global, plan: &mut Plan, call: Call<'_>) -> Done {
        let volume = volume(alloc, plan, call.number(0), call.number(1))?;
        let _ = self.volume.insert(volume);
        plan.clear();
        Ok(())
    }

    /// Takes the volume apart, and up again.
    fn begin_again(&mut self, alloc: Global, plan: &mut Plan) -> Done {
        let volume = self.volume.take().ok_or(Stopped)?;
        let _ = self.volume.insert(again(alloc, plan, volume)?);
        plan.clear();
        Ok(())
    }

    /// Takes a line.
    pub fn take(&mut self, page: &mut Page, plan: &mut Plan, call: Call<'_>) -> Done {
        match call.word {
            "volume" => self.begin(page.alloc(), plan, call),
            "again" => self.begin_again(page.alloc(), plan),
            _ => match &mut self.volume {
                Some(volume) => make(page, volume, call),
                None => Err(Stopped),
            },
        }
    }
}
