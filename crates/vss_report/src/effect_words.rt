//! The words of an effect, and of the end of the moves, as they are read back.

ghost use Rattle.std.specs.Prelude.{◌≡◌};
ghost use Rattle.vss_report.specs.Pieces.{pieces_at};
ghost use Rattle.vss_report.specs.Shapes as shapes;

use crate::move_words::is_one_volume;
use crate::pieces::{is_over, word_at};
use crate::reply_words::after_count;
use crate::shapes::{is, is_number, is_order, is_result, writer_named};
use scenario::Scenario;

/// Whether an evicted image is left.
fn is_evicted(scenario: &Scenario, line: &[u8], at: usize) -> bool
    ensures { result ≡ shapes.is_evicted scenario.now (pieces_at 32 line.now at) }
{
    let Some(set) = word_at(line, at) else {
        return false;
    };
    is_number(set.text) && is_one_volume(scenario, line, set.next)
}

/// Whether the name of an order is left, and no more.
fn is_one_order(line: &[u8], at: usize) -> bool
    ensures { result ≡ shapes.is_one shapes.is_order (pieces_at 32 line.now at) }
{
    let Some(word) = word_at(line, at) else {
        return false;
    };
    is_order(word.text) && is_over(line, b' ', word.next)
}

/// Whether the order over which a writer was lost is left.
fn is_lost_over(line: &[u8], at: usize) -> bool
    ensures { result ≡ shapes.are_two shapes.is_lost_word shapes.is_order (pieces_at 32 line.now at) }
{
    let Some(word) = word_at(line, at) else {
        return false;
    };
    is(word.text, "lost") && is_one_order(line, word.next)
}

/// Whether a lost writer is left.
fn is_lost(scenario: &Scenario, line: &[u8], at: usize) -> bool
    ensures { result ≡ shapes.is_lost scenario.now (pieces_at 32 line.now at) }
{
    let Some(name) = word_at(line, at) else {
        return false;
    };
    writer_named(scenario, name.text).is_some() && is_lost_over(line, name.next)
}

/// Whether the name of a result is left, and no more.
fn is_one_result(line: &[u8], at: usize) -> bool
    ensures { result ≡ shapes.is_one shapes.is_result (pieces_at 32 line.now at) }
{
    let Some(word) = word_at(line, at) else {
        return false;
    };
    is_result(word.text) && is_over(line, b' ', word.next)
}

/// Whether the end of a set is left.
fn is_end_of_set(line: &[u8], at: usize) -> bool
    ensures { result ≡ shapes.is_end_of_set (pieces_at 32 line.now at) }
{
    let Some(word) = word_at(line, at) else {
        return false;
    };
    if is(word.text, "complete") {
        return is_over(line, b' ', word.next);
    }
    is(word.text, "failed") && is_one_result(line, word.next)
}

/// Whether a set and its end are left.
fn is_ended(line: &[u8], at: usize) -> bool
    ensures { result ≡ shapes.is_ended (pieces_at 32 line.now at) }
{
    let Some(set) = word_at(line, at) else {
        return false;
    };
    is_number(set.text) && is_end_of_set(line, set.next)
}

/// Whether an effect is left, behind the sign of one.
pub fn is_effect(scenario: &Scenario, line: &[u8], at: usize) -> bool
    ensures { result ≡ shapes.is_effect scenario.now (pieces_at 32 line.now at) }
{
    let Some(what) = word_at(line, at) else {
        return false;
    };
    if is(what.text, "evicted") {
        return is_evicted(scenario, line, what.next);
    }
    if is(what.text, "writer") {
        return is_lost(scenario, line, what.next);
    }
    is(what.text, "set") && is_ended(line, what.next)
}

/// Whether the end of the moves is left, behind its first word.
pub fn is_end(line: &[u8], at: usize) -> bool
    ensures { result ≡ shapes.is_end (pieces_at 32 line.now at) }
{
    let Some(at) = after_count(line, at, "moves") else {
        return false;
    };
    let Some(at) = after_count(line, at, "clock") else {
        return false;
    };
    is_over(line, b' ', at)
}
