//! A text in lines, and a line in words.

ghost use Rattle.std.specs.Prelude.{◌≡◌, map, IfOk, IsTrue};
ghost use Rattle.std.specs.Char.{is_ascii_digit};
ghost use Rattle.std.specs.Str.Lines.{lines};
ghost use Rattle.vss_tools.specs.Lines.{number_of, rest_of, with_digit, word_of};

use std::alloc::{AllocError, Global};

/// The lines of a text.
pub fn lines_of<'a>(alloc: Global, text: &'a str) -> Result<Vec<&'a str>, AllocError>
    ensures { IfOk result (λ all. map (λ line. line.now) all.items ≡ lines text.now) }
{
    text.lines().collect(alloc)
}

/// The first word of a line, and what follows the space behind it.
pub fn parted(line: &str) -> (&str, &str)
    ensures word { result.0.now ≡ word_of line.now }
    ensures rest { result.1.now ≡ rest_of line.now }
{
    match line.split_once(' ') {
        Some(parts) => parts,
        None => (line, ""),
    }
}

/// The first word of a line.
pub fn word_of(line: &str) -> &str
    ensures { result.now ≡ word_of line.now }
{
    parted(line).0
}

/// What follows the first word of a line.
pub fn rest_of(line: &str) -> &str
    ensures { result.now ≡ rest_of line.now }
{
    parted(line).1
}

/// A number with one digit more; one of ten digits takes no more.
fn with_digit(value: u64, byte: u8) -> u64
    requires { IsTrue (is_ascii_digit byte) }
    ensures { result ≡ with_digit value byte }
{
    if value <= 999_999_999 {
        value * 10 + u64::from(byte - b'0')
    } else {
        value
    }
}

/// The number that a word is, or 0.
pub fn number(word: &str) -> u64
    ensures { result ≡ number_of word.now }
{
    let mut value = 0u64;
    for byte in word.as_bytes() {
        if !byte.is_ascii_digit() {
            return 0;
        }
        value = with_digit(value, *byte);
    }
    value
}
