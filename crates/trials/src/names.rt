//! The tables against the SDK's own headers, and what printing writes.

use crate::page::Page;
use crate::stopped::{Done, Stopped};
use vss_names::{Level, Order, OutOfMemory, VssResult, WriterError, WriterState};

/// A name and the number behind it.
fn numbered(words: &str) -> Option<(&str, u32)> {
    let (name, number) = words.split_once(' ')?;
    Some((name, number.parse::<u32>().ok()?))
}

/// A state by its name in the SDK, and by its number.
pub fn show_state(page: &mut Page, words: &str) -> Done {
    let Some((name, number)) = numbered(words) else {
        return Err(Stopped);
    };
    page.show(name, &WriterState::of_name(name.as_bytes()));
    let state = WriterState::of_number(number);
    page.show("state", &state);
    if let Some(state) = state {
        page.show("number", &state.number());
        page.print("name", &state);
    }
    Ok(())
}

/// A writer's error by its name in the SDK, and by its code.
pub fn show_error(page: &mut Page, words: &str) -> Done {
    let Some((name, code)) = numbered(words) else {
        return Err(Stopped);
    };
    page.show(name, &WriterError::of_name(name.as_bytes()));
    page.show("result", &VssResult::of_name(name.as_bytes()));
    let error = WriterError::of_number(code);
    page.show("error", &error);
    if let Some(error) = error {
        page.show("number", &error.number());
        page.print("result", &VssResult::from(error));
    }
    Ok(())
}

/// Levels by their names, and what an order and the answer of a call without memory are printed as.
pub fn show_printed(page: &mut Page) {
    page.show("level", &Level::of_name(b"VSS_APP_FRONT_END"));
    page.show("level", &Level::of_name(b"x"));
    page.print("order", &Order::PostSnapshot);
    page.print("memory", &OutOfMemory);
}
