//! The words of a reply as they are read back. Each call begins at the place of a word in a line.

ghost use Rattle.std.specs.Prelude.{◌≡◌, option_map};
ghost use Rattle.std.specs.List.{list_all};
ghost use Rattle.vss_report.specs.Pieces.{pieces_at};
ghost use Rattle.vss_report.specs.Shapes as shapes;

use crate::names::writer_name;
use crate::pieces::{is_over, word_at};
use crate::shapes::{is, is_hex, is_number, is_result, number_up_to};
use crate::state_words::is_state_of;
use scenario::Scenario;
use write_history::Mark;

/// Whether a number is left, and no more.
pub fn is_one_number(line: &[u8], at: usize) -> bool
    ensures { result ≡ shapes.is_one shapes.is_number (pieces_at 32 line.now at) }
{
    let Some(word) = word_at(line, at) else {
        return false;
    };
    is_number(word.text) && is_over(line, b' ', word.next)
}

/// Whether so many hexadecimal digits are left, and no more.
fn is_one_hex(line: &[u8], at: usize, count: usize) -> bool
    ensures { result ≡ shapes.is_one (shapes.is_hex count) (pieces_at 32 line.now at) }
{
    let Some(word) = word_at(line, at) else {
        return false;
    };
    is_hex(word.text, count) && is_over(line, b' ', word.next)
}

/// Whether the first bytes and the digest of a block are left.
fn is_block(line: &[u8], at: usize) -> bool
    ensures { result ≡ shapes.are_two (shapes.is_hex 16) (shapes.is_hex 64) (pieces_at 32 line.now at) }
{
    let Some(word) = word_at(line, at) else {
        return false;
    };
    is_hex(word.text, 16) && is_one_hex(line, word.next, 64)
}

/// Whether the length and the digest of a document are left.
fn is_document(line: &[u8], at: usize) -> bool
    ensures { result ≡ shapes.are_two shapes.is_number (shapes.is_hex 64) (pieces_at 32 line.now at) }
{
    let Some(word) = word_at(line, at) else {
        return false;
    };
    is_number(word.text) && is_one_hex(line, word.next, 64)
}

/// Whether all words that are left are numbers.
fn are_numbers(line: &[u8], at: usize) -> bool
    ensures { result ≡ list_all shapes.is_number (pieces_at 32 line.now at) }
{
    let mut at = at;
    'words: while at <= line.len() {
        let Some(word) = word_at(line, at) else {
            return true;
        };
        if !is_number(word.text) {
            return false;
        }
        at = word.next;
    }
    true
}

/// The place after this word and a number.
pub fn after_count(line: &[u8], at: usize, name: &str) -> Option<usize>
    ensures { option_map (pieces_at 32 line.now) result ≡ shapes.after_count name.now (pieces_at 32 line.now at) }
{
    let word = word_at(line, at)?;
    let count = word_at(line, word.next)?;
    if is(word.text, name) && is_number(count.text) {
        Some(count.next)
    } else {
        None
    }
}

/// Whether the properties of an image are left.
fn are_properties(line: &[u8], at: usize) -> bool
    ensures { result ≡ shapes.are_properties (pieces_at 32 line.now at) }
{
    let Some(at) = after_count(line, at, "context") else {
        return false;
    };
    let Some(at) = after_count(line, at, "cut") else {
        return false;
    };
    let Some(at) = after_count(line, at, "used") else {
        return false;
    };
    is_over(line, b' ', at)
}

/// Whether the states of all writers are left, in order.
fn are_states(scenario: &Scenario, line: &[u8], at: usize) -> bool
    ensures { result ≡ shapes.are_states scenario.now scenario.now.writers (pieces_at 32 line.now at) }
{
    let mut at = at;
    for writer in 0..scenario.writers() {
        let Some(word) = word_at(line, at) else {
            return false;
        };
        if !is_state_of(writer_name(scenario, writer), word.text) {
            return false;
        }
        at = word.next;
    }
    is_over(line, b' ', at)
}

/// Whether a word and what is left are a reply of a move in which no device failed.
fn is_clean(scenario: &Scenario, word: &[u8], line: &[u8], at: usize) -> bool
    ensures { result ≡ shapes.is_clean scenario.now word.now (pieces_at 32 line.now at) }
{
    if is(word, "ok") {
        is_over(line, b' ', at)
    } else if is(word, "NOT_SELECTABLE") {
        is_over(line, b' ', at)
    } else if is(word, "set") {
        is_one_number(line, at)
    } else if is(word, "deleted") {
        is_one_number(line, at)
    } else if is(word, "digest") {
        is_one_hex(line, at, 64)
    } else if is(word, "data") {
        is_block(line, at)
    } else if is(word, "document") {
        is_document(line, at)
    } else if is(word, "images") {
        are_numbers(line, at)
    } else if is(word, "properties") {
        are_properties(line, at)
    } else if is(word, "status") {
        are_states(scenario, line, at)
    } else {
        is_result(word) && is_over(line, b' ', at)
    }
}

/// The mark of a reply that begins with the word for a device that failed.
fn mark_of_fault(line: &[u8], at: usize) -> Option<Mark>
    ensures { result ≡ shapes.mark_of_fault (pieces_at 32 line.now at) }
{
    let Some(word) = word_at(line, at) else {
        return Some(Mark::Fault);
    };
    if !is_over(line, b' ', word.next) {
        return None;
    }
    let restored = number_up_to(word.text, 65535)?;
    Some(Mark::FaultAfter(restored))
}

/// The mark of a lane's move, by its reply.
pub fn mark_of_reply(scenario: &Scenario, line: &[u8], at: usize) -> Option<Mark>
    ensures { result ≡ shapes.mark_of_reply scenario.now (pieces_at 32 line.now at) }
{
    let word = word_at(line, at)?;
    if is(word.text, "fault") {
        return mark_of_fault(line, word.next);
    }
    if is_clean(scenario, word.text, line, word.next) {
        Some(Mark::Clean)
    } else {
        None
    }
}
