//! What the words of a line may be: a fixed word, a number, digits, a name of the scenario, a name of a table.

ghost use Rattle.std.specs.Prelude.{◌≡◌, ◌<◌, length, is_some, IfSome};
ghost use Rattle.std.specs.List.{list_all};
ghost use Rattle.std.specs.Str.{bytes_eq};
ghost use Rattle.vss_report.specs.Shapes as shapes;

use crate::names::{lane_name, volume_name, writer_name};
use scenario::numbers::number_in;
use scenario::{Reason, Scenario};
use vss_names::{Order, VssResult, WriterError};

/// Whether a word is this one.
pub fn is(word: &[u8], text: &str) -> bool
    ensures { result ≡ bytes_eq word.now text.now }
{
    word == text.as_bytes()
}

/// Whether a word is a number, of any length.
#[tactic(auto, using(crate::proofs::Joined::number_read))]
pub fn is_number(word: &[u8]) -> bool
    ensures { result ≡ shapes.is_number word.now }
{
    match number_in(word, 0, 0) {
        Err(Reason::BadNumber) => false,
        _ => true,
    }
}

/// The number that a word is, where it is one that is not above the bound.
pub fn number_up_to(word: &[u8], most: u32) -> Option<u32>
    ensures { result ≡ shapes.number_up_to most word.now }
{
    match number_in(word, 0, u64::from(most)) {
        Ok(number) => Some(number as u32),
        Err(_) => None,
    }
}

fn is_hex_digit(byte: u8) -> bool
    ensures { result ≡ shapes.is_hex_digit byte }
{
    byte.is_ascii_digit() || (b'a' <= byte && byte <= b'f')
}

fn are_hex_digits(word: &[u8]) -> bool
    ensures { result ≡ list_all shapes.is_hex_digit word.now }
{
    word.iter().all(|byte| is_hex_digit(*byte))
}

/// Whether a word is so many hexadecimal digits of lower case.
pub fn is_hex(word: &[u8], count: usize) -> bool
    ensures { result ≡ shapes.is_hex count word.now }
{
    word.len() == count && are_hex_digits(word)
}

/// Whether a word is what a writer answers.
pub fn is_answer(word: &[u8]) -> bool
    ensures { result ≡ shapes.is_answer word.now }
{
    is(word, "ok") || WriterError::of_name(word).is_some()
}

/// Whether a word is the name of an order.
pub fn is_order(word: &[u8]) -> bool
    ensures { result ≡ shapes.is_order word.now }
{
    Order::of_name(word).is_some()
}

/// Whether a word is the name of a result.
pub fn is_result(word: &[u8]) -> bool
    ensures { result ≡ shapes.is_result word.now }
{
    VssResult::of_name(word).is_some()
}

/// The lane with this name.
pub fn lane_named(scenario: &Scenario, name: &[u8]) -> Option<u32>
    ensures { result ≡ shapes.lane_named scenario.now name.now }
{
    for lane in 0..scenario.lanes() {
        if lane_name(scenario, lane) == name {
            return Some(lane);
        }
    }
    None
}

/// The volume with this name.
fn volume_named(scenario: &Scenario, name: &[u8]) -> Option<u32>
    ensures { result ≡ shapes.volume_named scenario.now name.now }
{
    for volume in 0..scenario.volumes() {
        if volume_name(scenario, volume) == name {
            return Some(volume);
        }
    }
    None
}

/// Whether a word is the name of a volume.
pub fn is_volume(scenario: &Scenario, word: &[u8]) -> bool
    ensures { result ≡ shapes.is_volume scenario.now word.now }
{
    volume_named(scenario, word).is_some()
}

/// The writer with this name.
pub fn writer_named(scenario: &Scenario, name: &[u8]) -> Option<u32>
    ensures { result ≡ shapes.writer_named scenario.now name.now }
{
    for writer in 0..scenario.writers() {
        if writer_name(scenario, writer) == name {
            return Some(writer);
        }
    }
    None
}
