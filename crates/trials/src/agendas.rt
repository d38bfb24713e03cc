//! The groups of an agenda, the orders of a writer, a session that has none, and a scenario that is read.

use crate::page::Page;
use crate::stopped::{Done, Stopped};
use requestor::{Requestor, SessionCall};
use scenario::{Scenario, parse};
use set_agenda::{Agenda, Kind, Member};
use std::alloc::Global;
use vss_names::{Level, Order};
use writer_calls::{Answer, Mailboxes};

/// A writer of the middle level.
const LONE: Member = Member {
    writer: 0,
    level: Level::BackEnd,
};

/// Shows the open group.
fn show_group(page: &mut Page, agenda: &Agenda) {
    page.show("group", &agenda.open_group());
    page.show("level", &agenda.level());
    page.show("volume", &agenda.next_volume());
}

/// Closes the open group, which is the provider's or asks the lone writer.
fn close_group(agenda: &mut Agenda) {
    if agenda.is_working() {
        agenda.close_step();
        return;
    }
    if agenda.is_open(0) {
        agenda.close_writer(0, false);
    }
}

/// The groups of a snapshot of one writer and one volume open in order.
fn show_groups(page: &mut Page, agenda: &mut Agenda) {
    for _group in 0..11 {
        show_group(page, agenda);
        close_group(agenda);
    }
    page.show("done", &agenda.is_done());
}

/// The open order alone is answered.
fn show_orders(alloc: Global, page: &mut Page) -> Done {
    let mut mailboxes = Mailboxes::new(alloc, 1)?;
    page.show("open", &mailboxes.poll(0));
    page.show("freeze", &mailboxes.send(0, Order::Freeze));
    mailboxes.cancel(0);
    page.show("freeze", &mailboxes.send(0, Order::Freeze));
    page.show("open", &mailboxes.poll(0));
    page.show("answer to 1", &mailboxes.answer(0, 1, Answer::Ok));
    page.show("answer to 2", &mailboxes.answer(0, 2, Answer::Ok));
    page.show("answer to 2", &mailboxes.answer(0, 2, Answer::Ok));
    Ok(())
}

/// Shows how many lanes a scenario has, how many lines the first one, and the name of the first volume.
fn show_scenario(page: &mut Page, scenario: &Scenario) {
    page.show("lanes", &scenario.lanes());
    if scenario.lanes() > 0 {
        page.show("lines", &scenario.lane_len(0));
    }
    if scenario.volumes() > 0 {
        page.line("volume", scenario.token(scenario.volume(0).name));
    }
}

/// All of these.
pub fn show_agendas(alloc: Global, page: &mut Page) -> Done {
    let mut snapshot = Agenda::new(alloc, Kind::Snapshot, &[LONE], &[5])?;
    show_groups(page, &mut snapshot);
    let prepare = Agenda::new(alloc, Kind::Prepare, &[], &[])?;
    page.show("done", &prepare.is_done());
    show_orders(alloc, page)?;
    let requestor = Requestor::new();
    page.show("gather", &requestor.check(4, SessionCall::Gather, false));
    Ok(())
}

/// Reads a scenario, in which `|` stands for the end of a line.
pub fn show_text(alloc: Global, page: &mut Page, folded: &str) -> Done {
    let mut text = Vec::new(alloc);
    for byte in folded.bytes() {
        text.push(if byte == b'|' { b'\n' } else { byte })?;
    }
    if text.len() > 1_000_000 {
        return Err(Stopped);
    }
    match parse(alloc, &text) {
        Ok(scenario) => show_scenario(page, &scenario),
        Err(refused) => page.print("refused", &refused),
    }
    Ok(())
}
