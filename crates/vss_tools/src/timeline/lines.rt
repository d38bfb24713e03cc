//! Which lines a report has, and how much time goes by in them.

ghost use Rattle.std.specs.Prelude.{◌≡◌, nat_eq};
ghost use Rattle.std.specs.List.{starts_with};
ghost use Rattle.vss_tools.specs.Lines.{is_closing, is_effect, is_line, is_move};

use crate::timeline::script::Script;
use crate::timeline::words::{number, parted, rest_of, word_of};

/// Whether a line is that of a move: it begins with a digit.
pub fn is_move(line: &str) -> bool
    ensures { result ≡ is_move line.now }
{
    match line.as_bytes().first() {
        None => false,
        Some(first) => first.is_ascii_digit(),
    }
}

/// Whether a text begins with these bytes.
pub fn begins(text: &str, word: &[u8]) -> bool
    ensures { result ≡ starts_with nat_eq text.now word.now }
{
    text.as_bytes().starts_with(word)
}

/// Whether a line is that of an effect.
pub fn is_effect(line: &str) -> bool
    ensures { result ≡ is_effect line.now }
{
    begins(line, b"= ")
}

/// Whether a line is one of those behind the last move.
fn is_closing(line: &str) -> bool
    ensures { result ≡ is_closing line.now }
{
    begins(line, b"end ")
        || begins(line, b"volume ")
        || begins(line, b"image ")
        || begins(line, b"writer ")
}

/// Whether a line is one that a report has.
pub fn is_line(line: &str) -> bool
    ensures { result ≡ is_line line.now }
{
    is_move(line) || is_effect(line) || is_closing(line) || line == "report 1"
}

/// How many ticks go by in a line.
pub fn ticks_of(script: &Script<'_>, line: &str) -> u64 {
    let (actor, said) = parted(rest_of(line));
    match actor {
        _ if !is_move(line) => 0,
        "idle" => number(said),
        "lane" => match parted(script.said(number(word_of(rest_of(said))))) {
            ("tick", ticks) => number(ticks),
            _ => 0,
        },
        _ => 0,
    }
}
