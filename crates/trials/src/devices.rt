//! Calls on devices in memory, and a maker of them, which fail as planned.

ghost use Rattle.std.specs.Prelude.{◌≡◌, length, IfOk};

use crate::making::device;
use crate::page::Page;
use crate::plan::{Plan, unfailing};
use crate::stopped::{Done, Stopped};
use block_data::{BLOCK, BlockBuf};
use std::alloc::Global;
use volume_device::{Device, Maker, MemDevice, MemMaker, Store};
use vss_names::{Numbers, Text};

/// A block that begins with this byte.
fn marked(alloc: Global, byte: u8) -> Result<BlockBuf, Stopped>
    ensures { IfOk result (λ block. length block ≡ BLOCK) }
{
    let mut block = BlockBuf::zeroed(alloc)?;
    block.bytes_mut()[0] = byte;
    Ok(block)
}

/// Makes the call that a word names, of those that have a number or nothing to show; `mark` and `first` are of the buffer.
fn show_number(page: &mut Page, device: &MemDevice, block: &mut BlockBuf, word: &str) {
    match word {
        "blocks" => page.show(word, &device.blocks()),
        "first" => page.show(word, &block.bytes()[0]),
        "mark" => block.bytes_mut()[0] = 2,
        _ => page.show("faults", &device.faults()),
    }
}

/// Makes the call that a word names, on block 1: a block is read into the buffer and written from it.
fn show_call(page: &mut Page, device: &mut MemDevice, block: &mut BlockBuf, word: &str) {
    if device.blocks() < 2 {
        return;
    }
    let is_so = match word {
        "read" => device.read_into(1, block.bytes_mut()).is_ok(),
        "shared" => device.read_shared(1, block.bytes_mut()),
        "write" => device.write(1, block.bytes()).is_ok(),
        "flush" => device.flush().is_ok(),
        "lends" => device.lends(),
        "lend" => device.lend(1).is_some(),
        _ => return show_number(page, device, block, word),
    };
    page.show(word, &is_so);
}

/// Makes the calls of a line on the device `device` of two blocks.
pub fn show_device(page: &mut Page, plan: &mut Plan, words: &str) -> Done {
    let mut block = marked(page.alloc(), 1)?;
    let mut device = device(page.alloc(), plan, "device", 2)?;
    plan.clear();
    for word in words.split(' ') {
        show_call(page, &mut device, &mut block, word);
    }
    Ok(())
}

/// Makes a device of this name and of three blocks, writes its block 1, and gives it back.
fn show_made(page: &mut Page, maker: &mut MemMaker, block: &mut BlockBuf, name: &str) -> Done {
    let name = Text::copy(page.alloc(), name.as_bytes())?;
    match maker.make(page.alloc(), &Store::Memory, &name, 3) {
        Ok(mut device) => {
            show_call(page, &mut device, block, "blocks");
            show_call(page, &mut device, block, "write");
            maker.take_back(device);
        }
        Err(fault) => page.show("refused", &fault),
    }
    page.show("faults", &maker.faults());
    Ok(())
}

/// A maker that refuses the first `D.vol`, and whose first `C.vol` fails its first write: a row of the plan serves one device.
pub fn show_maker(page: &mut Page) -> Done {
    let alloc = page.alloc();
    let mut refused = unfailing(alloc, "D.vol")?;
    refused.refused = true;
    let mut failing = unfailing(alloc, "C.vol")?;
    failing.writes = Numbers::copy(alloc, &[1])?;
    let mut plan = Vec::new(alloc);
    plan.push(refused)?;
    plan.push(failing)?;
    let mut block = marked(alloc, 1)?;
    let mut maker = MemMaker::new(alloc, plan);
    for name in ["D.vol", "C.vol", "C.vol", "D.vol"] {
        show_made(page, &mut maker, &mut block, name)?;
    }
    page.show("returned", &maker.returned().len());
    Ok(())
}
