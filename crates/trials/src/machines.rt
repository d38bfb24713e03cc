//! A clock, a gate of writes, a pool of slots, and a map of copies.

use crate::page::Page;
use crate::stopped::{Done, Stopped};
use diff_map::DiffMap;
use hold_gate::HoldGate;
use slot_pool::SlotPool;
use std::alloc::Global;
use tick_limits::{Clock, HOLD_LIMIT};

/// A limit passes at equality, and a full clock stands still.
fn show_clock(page: &mut Page) {
    let mut clock = Clock::new();
    page.show("10000 ticks", &clock.advance(10_000));
    page.show("spent", &clock.spent(0, HOLD_LIMIT));
    page.show("until", &clock.until_spent(0, HOLD_LIMIT));
    page.show("too many", &clock.advance(1 << 63));
    page.show("now", &clock.now());
}

/// A hold comes before a freeze, and clear opens both.
fn show_gate(alloc: Global, page: &mut Page) -> Done {
    let mut gate = HoldGate::new(alloc, 1, 1)?;
    page.show("writer", &gate.may_write(0, Some(0)));
    gate.freeze(0);
    page.show("writer", &gate.may_write(0, Some(0)));
    page.show("others", &gate.may_write(0, None));
    gate.hold(0);
    page.show("writer", &gate.may_write(0, Some(0)));
    page.show("others", &gate.may_write(0, None));
    gate.clear();
    page.show("writer", &gate.may_write(0, Some(0)));
    page.show("others", &gate.may_write(0, None));
    Ok(())
}

/// The lowest free slot is taken and given back.
fn show_slots(alloc: Global, page: &mut Page) -> Done {
    let mut pool = SlotPool::new(alloc, 2)?;
    page.show("taken", &pool.take());
    page.show("taken", &pool.take());
    page.show("taken", &pool.take());
    if pool.slots() == 2 && pool.is_taken(0) {
        pool.give(0);
    }
    page.show("free", &pool.free());
    page.show("taken", &pool.take());
    Ok(())
}

/// What a map finds for the older image and for the newer one.
fn show_finds(page: &mut Page, map: &DiffMap) {
    page.show("found", &map.find(1, 3));
    page.show("found", &map.find(1, 1));
    page.show("found", &map.find(2, 3));
    page.show("images", &map.images());
}

/// Two images of a volume of four blocks, each with a copy in a slot of two.
fn show_map(alloc: Global, page: &mut Page) -> Done {
    let mut map = DiffMap::new(alloc, 4, 2)?;
    map.add_image(1);
    if map.newest_has(3) {
        return Err(Stopped);
    }
    map.note(3, 0);
    map.add_image(2);
    if map.newest_has(1) {
        return Err(Stopped);
    }
    map.note(1, 1);
    show_finds(page, &map);
    Ok(())
}

/// All of these.
pub fn show_machines(alloc: Global, page: &mut Page) -> Done {
    show_clock(page);
    show_gate(alloc, page)?;
    show_slots(alloc, page)?;
    show_map(alloc, page)
}
