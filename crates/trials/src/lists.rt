//! Texts, numbers and trails grow where memory is at hand.

use crate::names::show_printed;
use crate::page::Page;
use crate::stopped::Done;
use std::alloc::Global;
use vss_names::{Numbers, Text};
use write_history::{Actor, MOST_MOVES, Mark, Move, Trail};

/// A move in which nothing fails.
const IDLE: Move = Move {
    actor: Actor::Idle,
    mark: Mark::Clean,
};

/// A copy takes room and grows.
fn show_text(alloc: Global, page: &mut Page) -> Done {
    let mut text = Text::copy(alloc, b"ab")?;
    text.reserve(10)?;
    page.line("text", text.bytes());
    text.add(b"c")?;
    page.line("text", text.bytes());
    Ok(())
}

/// A trail takes room for a move and keeps it.
fn show_move(page: &mut Page, trail: &mut Trail) {
    page.show("reserved", &trail.reserve());
    page.show("pushed", &trail.push(IDLE));
    page.show("length", &trail.len());
}

/// A trail keeps its first move, and one of as many moves as it may have takes no further one.
fn show_trail(page: &mut Page, trail: &mut Trail) {
    show_move(page, trail);
    if trail.len() == 1 {
        page.show("move", &trail.get(0));
    }
    for _ in trail.len()..MOST_MOVES as u32 {
        let _ = trail.push(IDLE);
    }
    show_move(page, trail);
}

/// All of these.
pub fn show_lists(alloc: Global, page: &mut Page) -> Done {
    show_printed(page);
    show_text(alloc, page)?;
    page.show("numbers", &Numbers::copy(alloc, &[1, 2])?);
    show_trail(page, &mut Trail::new(alloc));
    Ok(())
}
