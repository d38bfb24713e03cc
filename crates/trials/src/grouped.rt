//! Calls of a group.

ghost use Rattle.std.specs.Prelude.{◌<◌, length};

use crate::call::Call;
use crate::content::{buffer, filled_with};
use crate::making::may_cut;
use crate::page::Page;
use crate::stopped::{Done, Stopped};
use block_data::Payload;
use cow_volume::CowGroup;
use volume_device::MemDevice;

type Group = CowGroup<MemDevice>;

/// Reads a block of a volume, or of an image.
fn read(page: &mut Page, group: &mut Group, v: u32, set: Option<u32>, block: u32) -> Done
    requires { v < length group.old.area.volumes }
{
    let mut out = buffer(page.alloc())?;
    let read = group.read_into(v, set, block, out.bytes_mut());
    page.tell(&read.map(|()| filled_with(out.bytes())));
    Ok(())
}

/// Makes a call that looks at a volume, and says whether the word is of one.
fn looks(page: &mut Page, group: &Group, v: u32, call: Call<'_>) -> bool
    requires { v < length group.now.area.volumes }
{
    let (first, second) = (call.number(1), call.number(2));
    match call.word {
        "used_by" => page.tell(&group.used_by(v, first)),
        "used" => page.tell(&group.used(v)),
        "images" => page.tell(&group.images(v)),
        "lend-image" => {
            let lent = group.lend(v, Some(first), second);
            page.tell(&lent.map(|lent| lent.map(filled_with)));
        }
        _ if first >= group.blocks(v) => return false,
        "lend" => {
            let lent = group.lend(v, None, first).ok().flatten();
            page.tell(&lent.map(filled_with));
        }
        "up_to" => page.tell(&group.goes_up_to(v, first)),
        _ => return false,
    }
    true
}

/// Makes a call that reads or changes a volume.
fn change(page: &mut Page, group: &mut Group, v: u32, call: Call<'_>) -> Done
    requires { v < length group.old.area.volumes }
{
    let (first, second) = (call.number(1), call.number(2));
    match call.word {
        "read" => return read(page, group, v, None, first),
        "image" => return read(page, group, v, Some(first), second),
        "write" => page.tell(&group.write(v, first, &Payload::Fill(call.byte(2)))),
        "drop" => page.tell(&group.drop_image(v, first)),
        "revert" => page.tell(&group.revert(v, first)),
        "flush" => page.tell(&group.flush(v)),
        "cut" if may_cut(group.images(v), first) => page.tell(&group.cut(v, first)),
        _ => return Err(Stopped),
    }
    Ok(())
}

/// Makes a call of a volume of a group.
fn make_on(page: &mut Page, group: &mut Group, v: u32, call: Call<'_>) -> Done {
    if v >= group.volumes() {
        return Err(Stopped);
    }
    if looks(page, group, v, call) {
        return Ok(());
    }
    change(page, group, v, call)
}

/// Makes a call of a group.
pub fn make(page: &mut Page, group: &mut Group, call: Call<'_>) -> Done {
    match call.word {
        "used_all" => page.tell(&group.used_all()),
        "slots" => page.tell(&group.slots()),
        "sync" => page.tell(&group.sync()),
        _ => return make_on(page, group, call.number(0), call),
    }
    Ok(())
}
