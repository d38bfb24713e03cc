//! A writer that is registered once and gathered.

use crate::page::Page;
use crate::stopped::{Done, Stopped};
use component_doc::{Metas, Selection};
use coordinator::{Coordinator, Effects};
use set_agenda::Kind;
use std::alloc::Global;
use vss_names::{MOST_WRITERS, Text};
use writer_calls::Answer;
use writer_meta::Metadata;

/// Registers a writer of these metadata by the name `db`.
fn register(alloc: Global, page: &mut Page, coordinator: &mut Coordinator, db: &Metadata) -> Done {
    if coordinator.writers() >= MOST_WRITERS {
        return Err(Stopped);
    }
    let name = Text::copy(alloc, b"db")?;
    let copy = db.copy(alloc)?;
    page.show("registered", &coordinator.register(alloc, &name, copy));
    Ok(())
}

/// All that a lone writer has is chosen.
fn chosen(alloc: Global, db: &Metadata) -> Result<Selection, Stopped> {
    let mut items = Vec::new(alloc);
    items.push(Some(db))?;
    let known = Metas::of(items);
    Ok(Selection::all(alloc, &known)?)
}

/// A Gather begins over the writers of a selection.
fn begin(
    alloc: Global,
    coordinator: &mut Coordinator,
    all: &Selection,
) -> Result<Effects, Stopped> {
    if coordinator.writers() != all.writers() || coordinator.posts() >= 1_000 {
        return Err(Stopped);
    }
    if coordinator.open_group().is_some() {
        return Err(Stopped);
    }
    Ok(coordinator.begin_agenda(alloc, Kind::Gather, 1, &[], all, 0)?)
}

/// The lone writer answers the order with number 1.
fn show_answer(page: &mut Page, coordinator: &mut Coordinator) {
    if coordinator.writers() == 0 || coordinator.posts() >= 1_000 {
        return;
    }
    page.show("state", &coordinator.row(0).state);
    if coordinator.is_on_time(0) {
        page.show("limit", &coordinator.until_limit(0));
    }
    page.show("answered", &coordinator.answered(0, 1, Answer::Ok, 0));
    if coordinator.writers() > 0 {
        page.show("state", &coordinator.row(0).state);
    }
}

/// A writer with the metadata of a document is registered, and again, and gathered.
pub fn show_coordinator(alloc: Global, page: &mut Page, document: &str) -> Done {
    let Ok(db) = Metadata::from_json(alloc, document.as_bytes()) else {
        return Err(Stopped);
    };
    let mut coordinator = Coordinator::new(alloc)?;
    register(alloc, page, &mut coordinator, &db)?;
    register(alloc, page, &mut coordinator, &db)?;
    let all = chosen(alloc, &db)?;
    page.show("begun", &begin(alloc, &mut coordinator, &all)?);
    show_answer(page, &mut coordinator);
    Ok(())
}
