//! Single calls of the lower crates.

use crate::call::Call;
use crate::page::Page;
use crate::plan::Plan;
use crate::stopped::{Done, Stopped};
use crate::{
    agendas, blocks, coordinators, devices, documents, generating, lists, machines, names,
    selections, small_area, streams,
};

/// Makes the calls that a word alone names.
fn make_all(page: &mut Page, word: &str) -> Done {
    let alloc = page.alloc();
    match word {
        "lists" => lists::show_lists(alloc, page),
        "machines" => machines::show_machines(alloc, page),
        "blocks" => blocks::show_blocks(alloc, page),
        "streams" => streams::show_streams(alloc, page),
        "maker" => devices::show_maker(page),
        "agendas" => agendas::show_agendas(alloc, page),
        "summary" => generating::show_summary(alloc, page),
        _ => Err(Stopped),
    }
}

/// Makes the calls of a line, whose word says what is called.
pub fn make(page: &mut Page, plan: &mut Plan, call: Call<'_>) -> Done {
    let (alloc, rest) = (page.alloc(), call.rest);
    match call.word {
        "state" => names::show_state(page, rest),
        "error" => names::show_error(page, rest),
        "device" => devices::show_device(page, plan, rest),
        "area" => small_area::show_area(page, plan, call),
        "coordinator" => coordinators::show_coordinator(alloc, page, rest),
        "scenario" => agendas::show_text(alloc, page, rest),
        "document" => documents::show_document(alloc, page, rest),
        "selection" => selections::show_selection(alloc, page, rest),
        "generated" => generating::show_generated(alloc, page, call.number(0)),
        word => make_all(page, word),
    }
}
