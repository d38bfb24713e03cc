//! What the words ask for.

ghost use Rattle.std.specs.Prelude.{◌≡◌, not, true, map, slice_get, string_bytes, option_map, is_some, IfOk, IfErr};
ghost use Rattle.std.specs.List.{list_all};
ghost use Rattle.vss_main.specs.Command.{shown, is_dashed, are_plain, folder_of, number_of, with_folder, run_with, generate_with, inspect_with, meant, command};

use crate::command::Command;
use crate::parts::{Parts, parts_of};
use crate::task::Task;
use scenario::numbers::number_in;
use std::alloc::Global;
use vss_names::OutOfMemory;

fn is_dashed(word: &str) -> bool
    ensures { result ≡ is_dashed word.now }
{
    match word.as_bytes().first() {
        None => false,
        Some(first) => *first == b'-',
    }
}

/// Whether no word begins with `-`.
fn have_no_hyphen(words: &[String]) -> bool
    ensures { result ≡ list_all (λ word. not (is_dashed (string_bytes word))) words.now }
{
    words.iter().all(|word| !is_dashed(word.as_str()))
}

/// Whether there are at most three words, and none begins with `-`.
#[tactic(auto, using(crate::proofs::Parting::too_many_words, crate::proofs::Parting::few_words))]
fn are_plain(words: &[String]) -> bool
    ensures { result ≡ are_plain (map string_bytes words.now) }
{
    if 3 < words.len() {
        return false;
    }
    have_no_hyphen(words)
}

/// The number that a word is, in decimal digits without a leading zero.
fn number_of(word: Option<&str>) -> Option<u32>
    ensures { result ≡ number_of (option_map (λ s. s.now) word.entry) }
{
    let word = word?;
    match number_in(word.as_bytes(), 0, 4_294_967_295) {
        Ok(number) => Some(number as u32),
        Err(_) => None,
    }
}

/// A task with a folder, where there is a word for it, which has to be its name.
fn with_folder<'a>(task: Task, folder: Option<&'a str>) -> Option<Command<'a>>
    ensures { option_map shown result ≡ with_folder task (folder_of (option_map (λ s. s.now) folder.entry)) }
{
    if let Some(name) = folder {
        if name.is_empty() {
            return None;
        }
    }
    Some(Command { task, folder })
}

/// What `run` and the words after it ask for.
fn run_with<'a>(folder: Option<&'a str>, more: Option<&'a str>) -> Option<Command<'a>>
    ensures { option_map shown result ≡ run_with (option_map (λ s. s.now) folder.entry) (option_map (λ s. s.now) more.entry) }
{
    match more {
        None => with_folder(Task::Run, folder),
        Some(_) => None,
    }
}

/// What `gen` and the words after it ask for.
fn generate_with<'a>(number: Option<&'a str>, folder: Option<&'a str>) -> Option<Command<'a>>
    ensures { option_map shown result ≡ generate_with (option_map (λ s. s.now) number.entry) (option_map (λ s. s.now) folder.entry) }
{
    match number_of(number) {
        None => None,
        Some(number) => with_folder(Task::Generate { number }, folder),
    }
}

/// What `inspect` and the word after it ask for.
fn inspect_with<'a>(more: Option<&'a str>) -> Option<Command<'a>>
    ensures { option_map shown result ≡ inspect_with (option_map (λ s. s.now) more.entry) }
{
    match more {
        None => with_folder(Task::Inspect, None),
        Some(_) => None,
    }
}

/// What these words ask for, in order.
fn meant<'a>(parts: Parts<'a>) -> Option<Command<'a>>
    ensures { option_map shown result ≡ meant (option_map (λ s. s.now) parts.entry.first) (option_map (λ s. s.now) parts.entry.second) (option_map (λ s. s.now) parts.entry.third) }
{
    match parts.first {
        None => None,
        Some("run") => run_with(parts.second, parts.third),
        Some("gen") => generate_with(parts.second, parts.third),
        Some("inspect") => inspect_with(parts.second),
        Some(_) => None,
    }
}

/// The word at a place.
fn word_at<'a>(words: &'a [String], at: usize) -> Option<&'a str>
    ensures { option_map (λ s. s.now) result ≡ slice_get (map string_bytes words.entry.now) at }
{
    match words.get(at) {
        None => None,
        Some(word) => Some(word.as_str()),
    }
}

/// What the words ask for: `run`, `run F`, `gen N`, `gen N F` or `inspect`. None exactly where they are no command, even if there is no
/// memory to part them.
pub fn command_of<'a>(
    alloc: Global,
    words: &'a [String],
) -> Result<Option<Command<'a>>, OutOfMemory>
    ensures found { IfOk result (λ found. option_map shown found ≡ command (map string_bytes words.entry.now)) }
    ensures wanting { IfErr result (λ _. is_some (command (map string_bytes words.entry.now)) ≡ true) }
{
    if !are_plain(words) {
        return Ok(None);
    }
    if let Ok(parts) = parts_of(alloc, words) {
        return Ok(meant(parts));
    }
    let parts = Parts {
        first: word_at(words, 0),
        second: word_at(words, 1),
        third: word_at(words, 2),
    };
    match meant(parts) {
        None => Ok(None),
        Some(_) => Err(OutOfMemory),
    }
}
